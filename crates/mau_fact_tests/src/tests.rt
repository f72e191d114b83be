//! Documents of facts, and altered ones. The answers are those of the format.
use itoa::Buffer;
use mau_facts::{Fact, FactFault, laws, read_facts, show_document};
use std::alloc::Global;
use std::process::Abort;
use std::test::Fail;

/// One step by an equation, in a module with two constants.
const STEP: &str =
    "mrew-facts 1\ntext 64\nfmod P is sort S . ops a b : -> S . eq a = b . endfm\nreduce a .\n\nsection 2 P\nterm 1 app 8\nterm 2 app 9\nterm 3 var HOLE:[S]\nfact 1 step eq 10 3 from 1 to 2 bind uses\nend\n";

/// All kinds of terms and facts, two sections, no text.
const KINDS: &str =
    "mrew-facts 1\ntext 0\n\nsection 0 A-B\nterm 1 num 340282366920938463463374607431768211455\nterm 2 var X:Y:S\nterm 3 app 4294967295 1 2\nfact 1 sort 1 7 decl uses\nfact 2 sort 3 7 mb 5 bind 1 2 uses 1\nfact 3 same 3 3\nfact 4 step rl 2 3 from 1 to 2 bind 3 3 uses 3 1\nfact 5 built 6 2 from 3 to 1 args 1 2\nfact 6 under 9 4 5 from 1 to 3\nfact 7 chain 6 6 1\nend\nsection 4294967295 \u{e9}\nend\n";

/// The answer to bytes: a document, whose spelling they are, or a fault.
fn answer(rt: &impl Abort, alloc: Global, bytes: &[u8]) -> Result<Option<FactFault>, Fail> {
    match read_facts(alloc, bytes) {
        Ok(document) => {
            laws::documents_are_writable();
            let shown = show_document(alloc, &document)?;
            assert_eq!(rt; shown.as_slice(), bytes);
            Ok(None)
        }
        Err(fault) => Ok(Some(fault)),
    }
}

/// A text with the first of some words replaced by others.
fn altered(alloc: Global, text: &str, old: &str, new: &str) -> Result<String, Fail> {
    let mut altered = String::new(alloc);
    match text.split_once(old) {
        Some((front, back)) => {
            altered.push_str(front)?;
            altered.push_str(new)?;
            altered.push_str(back)?;
        }
        None => altered.push_str("there is no such place")?,
    }
    Ok(altered)
}

#[test]
fn documents_are_read_and_written(rt: HostRuntime) -> Result<(), Fail> {
    for text in [STEP, KINDS, "mrew-facts 1\ntext 0\n\n"] {
        let found = answer(&rt, rt.alloc(), text.as_bytes())?;
        assert_eq!(rt; found, None, "{text}");
    }
    Ok(())
}

#[test]
fn the_content_is_that_of_the_lines(rt: HostRuntime) -> Result<(), Fail> {
    let document = read_facts(rt.alloc(), STEP.as_bytes())?;
    assert_eq!(rt; document.version, 1);
    assert_eq!(rt; document.text.items().len(), 64);
    assert_eq!(rt; document.sections.items().len(), 1);
    let section = document.sections.items().first().ok_or("no section")?;
    assert_eq!(rt; section.item, 2);
    assert_eq!(rt; section.module.as_str(), "P");
    let terms = format!(in rt.alloc(); "{:?}", section.terms)?;
    assert!(rt; terms.as_str().contains("HOLE:[S]"), "{terms}");
    assert_eq!(rt; section.facts.items().len(), 1);
    match section.facts.items().first() {
        Some(Fact::Step(step)) => {
            assert!(rt; !step.rule && step.number == 10);
            assert_eq!(rt; (step.context, step.from, step.to), (3, 1, 2));
            assert!(rt; step.bind.items().is_empty() && step.uses.items().is_empty());
        }
        _ => return Err(Fail::new("no step")),
    }
    Ok(())
}

#[test]
fn the_first_line_at_fault_is_named(rt: HostRuntime) -> Result<(), Fail> {
    use mau_facts::FactFault::{BadNumber, Unexpected};
    let cases = [
        ("mrew-facts 1", "mrew-facts 2", Some(Unexpected(1))),
        ("mrew-facts 1\n", "mrew-facts 1\r\n", Some(Unexpected(1))),
        ("text 64", "text 65", Some(Unexpected(6))),
        ("text 64", "text 63", Some(Unexpected(5))),
        ("text 64", "text 1000", Some(Unexpected(12))),
        ("text 64", "text 064", Some(Unexpected(2))),
        ("text 64", "text 4294967296", Some(BadNumber(2))),
        ("text 64", "text  64", Some(Unexpected(2))),
        ("\n\nsection", "\n\n\nsection", Some(Unexpected(6))),
        ("section 2 P", "section 2 Q", None),
        ("section 2 P", "section 1 P", None),
        ("section 2 P", "section 4294967296 P", Some(BadNumber(6))),
        ("section 2 P", "section 2 ", Some(Unexpected(6))),
        ("section 2 P", "section 2 P\r", Some(Unexpected(6))),
        ("section 2 P", "section 2 P Q", Some(Unexpected(6))),
        ("section 2 P", "term 1 app 8", Some(Unexpected(6))),
        ("term 1 app 8", "term 1 app 9", None),
        ("term 1 app 8", "term 2 app 8", Some(BadNumber(7))),
        ("term 1 app 8", "term 1 app 8 1", Some(BadNumber(7))),
        ("term 1 app 8", "term 1 app 8 0", Some(BadNumber(7))),
        ("term 1 app 8", "term 1 app -8", Some(Unexpected(7))),
        ("term 1 app 8", "term 1 app 8 ", Some(Unexpected(7))),
        (
            "term 1 app 8",
            "term 1 num 340282366920938463463374607431768211456",
            Some(BadNumber(7)),
        ),
        ("term 1 app 8", "end\nend", Some(Unexpected(8))),
        ("term 3 var HOLE:[S]", "term 3 var HOLE:[Bool]", None),
        (
            "term 3 var HOLE:[S]",
            "term 3 var HOLE",
            Some(Unexpected(9)),
        ),
        ("term 3 var HOLE:[S]", "term 3 var :S", Some(Unexpected(9))),
        ("term 3 var HOLE:[S]", "term 3 var X:", Some(Unexpected(9))),
        ("step eq 10", "step eq 11", None),
        ("step eq 10", "step mb 10", Some(Unexpected(10))),
        ("from 1 to 2", "from 2 to 1", None),
        ("from 1 to 2", "from 1 to 4", Some(BadNumber(10))),
        ("from 1 to 2", "from 01 to 2", Some(Unexpected(10))),
        ("from 1 to 2", "from 9 to x", Some(Unexpected(10))),
        ("bind uses", "bind uses 1", Some(BadNumber(10))),
        ("fact 1 step", "fact 2 step", Some(BadNumber(10))),
        (
            "bind uses\n",
            "bind uses\nterm 4 app 8\n",
            Some(Unexpected(11)),
        ),
        (
            "bind uses\n",
            "bind uses\nfact 2 chain\n",
            Some(Unexpected(11)),
        ),
        (
            "bind uses\n",
            "bind uses\nfact 2 chain 2\n",
            Some(BadNumber(11)),
        ),
        (
            "bind uses\n",
            "bind uses\nfact 2 under 1 from 1 to 2\n",
            Some(Unexpected(11)),
        ),
        (
            "bind uses\n",
            "bind uses\nfact 2 same 1\n",
            Some(Unexpected(11)),
        ),
        (
            "bind uses\n",
            "bind uses\nfact 3 same 9 9\nx\n",
            Some(BadNumber(11)),
        ),
        ("uses\nend\n", "uses\n", Some(Unexpected(11))),
        ("uses\nend\n", "uses\nend", Some(Unexpected(11))),
        ("uses\nend\n", "uses\nend\n\n", Some(Unexpected(12))),
    ];
    for (old, new, wanted) in cases {
        let text = altered(rt.alloc(), STEP, old, new)?;
        let found = answer(&rt, rt.alloc(), text.as_bytes())?;
        assert_eq!(rt; found, wanted, "{new}");
    }
    Ok(())
}

#[test]
fn short_texts_have_their_fault(rt: HostRuntime) -> Result<(), Fail> {
    use mau_facts::FactFault::Unexpected;
    let cases: [(&[u8], FactFault); 6] = [
        (b"", Unexpected(1)),
        (b"mrew-facts 1", Unexpected(1)),
        (b"mrew-facts 1\n", Unexpected(2)),
        (b"mrew-facts 1\ntext 3\nab 12\n", Unexpected(3)),
        (
            b"mrew-facts 1\ntext 1\n\xff\nsection 1 \xff\nend\n",
            Unexpected(4),
        ),
        (b"mrew-facts 1\ntext 4\na\nb", Unexpected(4)),
    ];
    for (bytes, wanted) in cases {
        let found = answer(&rt, rt.alloc(), bytes)?;
        assert_eq!(rt; found, Some(wanted));
    }
    Ok(())
}

/// A number that seems to be drawn by lot.
fn next(state: &mut u64) -> u64 {
    *state = state
        .wrapping_mul(6364136223846793005)
        .wrapping_add(1442695040888963407);
    *state >> 33
}

#[test]
fn ten_thousand_altered_documents_end_with_an_answer(rt: HostRuntime) -> Result<(), Fail> {
    let mut state = 1;
    let mut documents: u32 = 0;
    for _ in 0..10000u32 {
        let text = if next(&mut state) % 2 == 0 {
            STEP
        } else {
            KINDS
        };
        let mut bytes = Vec::from_slice(rt.alloc(), text.as_bytes())?;
        for _ in 0..next(&mut state) % 3 + 1 {
            let place = (next(&mut state) % 600) as usize;
            let letters = b" \n0123456789abcdefghijklmnopqrstuvwxyz:\xff";
            let letter = letters[(next(&mut state) % 40) as usize];
            if let Some(byte) = bytes.get_mut(place) {
                *byte = letter;
            }
        }
        let found = answer(&rt, rt.alloc(), &bytes)?;
        assert!(rt; found != Some(FactFault::NoMemory));
        if found == None && documents < 10000 {
            documents += 1;
        }
    }
    assert!(rt; 0 < documents && documents < 10000);
    Ok(())
}

#[test]
fn a_million_lines_are_read_in_time(rt: HostRuntime) -> Result<(), Fail> {
    let mut bytes = Vec::from_slice(rt.alloc(), b"mrew-facts 1\ntext 0\n\nsection 1 P\n")?;
    for i in 1..1000001u64 {
        bytes.extend_from_slice(b"term ")?;
        bytes.extend_from_slice(Buffer::new().format(i).as_bytes())?;
        bytes.extend_from_slice(b" app 8\n")?;
    }
    let found = answer(&rt, rt.alloc(), &bytes)?;
    assert_eq!(rt; found, Some(FactFault::Unexpected(1000005)));
    bytes.extend_from_slice(b"end\n")?;
    let found = answer(&rt, rt.alloc(), &bytes)?;
    assert_eq!(rt; found, None);
    Ok(())
}
