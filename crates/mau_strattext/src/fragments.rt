//! The fragments of a condition in a strategy.
ghost use Rattle.std.specs.Prelude.{◌≡◌, List, [], ◌∷◌, ◌++◌, All, IfOk, IfErr, OnOk, IfSome, Ok};
ghost use Rattle.mau_modtext.specs.declared.raw.RawFragment.{RawFragment as Raw};
ghost use Rattle.mau_program.specs.LawfulStatements.{IsLawfulFragment};
ghost use Rattle.mau_statement.specs.Conditions.{ConditionReads, ConditionUnread};
ghost use Rattle.mau_statement.specs.declared.fault.StatementFault.{StatementFault as Unread};
ghost use Rattle.mau_shapes.specs.declared.pieces.Part.{Part as SomePart};
ghost use Rattle.mau_shapes.specs.declared.pieces.Piece.{Piece as One};
ghost use Rattle.mau_shapes.specs.declared.pieces.Piece.TheVariants as Pieces;
ghost use Rattle.mau_strattext.specs.Fragments;
ghost use Rattle.mau_strattext.specs.Faults.{FragmentsFault, IsOfFragment};
ghost use Rattle.mau_strattext.specs.Strategies.{IfTold};
ghost use Rattle.mau_strattext.specs.Building.{FragmentsAnswer, fragment_fault_of};

use crate::cut::cut;
use crate::fault::StratFault;
use crate::setting::Setting;
use mau_declare::Words;
use mau_modtext::RawFragment;
use mau_program::Fragment;
use mau_shapes::{Part, Piece};
use mau_statement::{Context, StatementFault, read_condition};
use mau_terms::{NoMemory, Seq, Vars};
use std::alloc::Global;

/// The fault of a fragment that begins at a place of the text.
fn fault_at(place: u32, fault: StatementFault) -> StratFault
    ensures { result ≡ fragment_fault_of place fault }
{
    match fault {
        StatementFault::Parse(fault) => StratFault::Parse(place, fault),
        StatementFault::UnknownSort(at) => StratFault::UnknownName(at),
        _ => StratFault::NoMemory,
    }
}

/// Fragments behind others.
fn push_all(alloc: Global, out: &mut Vec<Fragment>, more: &[Fragment]) -> Result<(), NoMemory>
    ensures { OnOk result (out.new.items ≡ out.old.items ++ more.now) }
{
    for fragment in more {
        out.push(fragment.copy(alloc)?)?;
    }
    Ok(())
}

/// What a fragment that is cut reads as; it begins at a place of the text.
fn read_raw(
    alloc: Global,
    words: &Words,
    context: &Context,
    vars: &mut Vars,
    raw: RawFragment,
    place: u32,
) -> Result<Seq<Fragment>, StratFault>
    ensures reads { IfOk result (ConditionReads words.now context.now vars.old (raw ∷ []) vars.new) }
    ensures lawful { IfOk result (All (IsLawfulFragment context.now.signature)) }
    ensures fault { IfErr result (IfTold (λ g. (f : Unread) × ConditionUnread words.now context.now vars.old (raw ∷ []) f × IsOfFragment place f g)) }
{
    let raws = [raw];
    match read_condition(alloc, words, context, vars, &raws) {
        Ok(read) => Ok(read),
        Err(fault) => Err(fault_at(place, fault)),
    }
}

/// The part of a fragment.
fn fragment(piece: Piece) -> Option<Part>
    ensures { IfSome result (λ p. piece ≡ Pieces.Fragment p) }
{
    match piece {
        Piece::Fragment(part) => Some(part),
        _ => None,
    }
}

/// What the fragment of a part reads as.
fn read_fragment(
    alloc: Global,
    setting: &Setting,
    vars: &mut Vars,
    part: Part,
) -> Result<Seq<Fragment>, StratFault>
    ensures reads { IfOk result (λ xs. (raw : Raw) × (Fragments.cut setting.now part ≡ Ok raw) × ConditionReads setting.now.words setting.now.context vars.old (raw ∷ []) vars.new xs) }
    ensures lawful { IfOk result (All (IsLawfulFragment setting.now.context.signature)) }
    ensures fault { IfErr result (IfTold (λ f. (ps : List One) → FragmentsFault setting.now (Pieces.Fragment part ∷ ps) vars.old f)) }
{
    match cut(alloc, setting, part) {
        Ok(raw) => read_raw(
            alloc,
            setting.words(),
            setting.context(),
            vars,
            raw,
            setting.start(part.start),
        ),
        Err(fault) => Err(fault),
    }
}

/// What the fragments of a condition read as.
pub fn read_fragments(
    alloc: Global,
    setting: &Setting,
    vars: &mut Vars,
    pieces: &[Piece],
) -> Result<Seq<Fragment>, StratFault>
    ensures answer { FragmentsAnswer setting.now pieces.now vars.old vars.new result }
    ensures lawful { IfOk result (All (IsLawfulFragment setting.now.context.signature)) }
{
    let mut fragments = Vec::new(alloc);
    let mut rest = pieces;
    while let Some((piece, more)) = rest.split_first() {
        match fragment(*piece) {
            Some(part) => match read_fragment(alloc, setting, vars, part) {
                Ok(read) => {
                    push_all(alloc, &mut fragments, read.items())?;
                    rest = more;
                }
                Err(fault) => return Err(fault),
            },
            None => return Err(StratFault::NoMemory),
        }
    }
    Ok(Seq::new(fragments))
}
