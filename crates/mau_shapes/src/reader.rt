//! Reading the text of a strategy word by word, with what waits on the heap.
ghost use Rattle.std.specs.Prelude.{◌≡◌, ◌<◌, ◌+◌, ◌^◌, [], true, false, codes, IfOk, OnOk};
ghost use Rattle.mau_shapes.specs.Machine;
ghost use Rattle.mau_shapes.specs.Words.{is};
ghost use Rattle.mau_shapes.specs.Machine.{steps_by};
ghost use Rattle.mau_shapes.specs.declared.reader.Mode.TheVariants as Modes;

use crate::frames::{Frame, Frames};
use crate::pieces::{Part, Piece, Pieces};
use crate::words::{Beginning, PartKind, Role, beginning_of, behind, is_last, role_of, stops};
use mau_terms::NoMemory;
use std::alloc::Global;

/// Where the text is.
#[derive(Clone, Copy)]
pub enum Mode {
    /// A strategy is wanted.
    Operand,
    /// Behind a name, which stands at a place.
    Named(usize, Beginning),
    /// Behind a strategy.
    Done,
    /// In a part, from a place on, with so many open brackets.
    Reading(PartKind, usize, usize),
    /// Behind `such`.
    Such,
}

/// What was read so far.
#[derive(Drop)]
pub struct Reader {
    pub mode: Mode,
    pub frames: Frames,
    pub pieces: Pieces,
}

/// Closes the forms below a level.
fn close(frames: &mut Frames, pieces: &mut Pieces, level: u32) -> Result<(), NoMemory>
    ensures { OnOk result (Machine.closed level frames.old pieces.old ≡ (frames.new, pieces.new)) }
{
    while let Some(piece) = closing_piece(frames.top(), level) {
        frames.pop();
        pieces.push(piece)?;
    }
    Ok(())
}

/// The piece of a form below a level.
fn closing_piece(frame: Option<Frame>, level: u32) -> Option<Piece>
    ensures { result ≡ Machine.close_piece level frame }
{
    match frame {
        Some(Frame::Left(below, place)) => {
            if below < level {
                Some(Piece::Joined(place))
            } else {
                None
            }
        }
        Some(Frame::Answered) => { if 6 < level { Some(Piece::Chosen) } else { None } }
        _ => None,
    }
}

/// The piece of a part.
fn part_piece(kind: PartKind, part: Part) -> Piece
    ensures { result ≡ Machine.part_piece kind part }
{
    match kind {
        PartKind::Argument => Piece::Argument(part),
        PartKind::Variable => Piece::Variable(part),
        PartKind::Value => Piece::Value(part),
        PartKind::Pattern => Piece::Pattern(part),
        PartKind::Fragment => Piece::Fragment(part),
    }
}

impl Reader {
    /// Nothing was read.
    pub fn new(alloc: Global) -> Reader
        ensures mode { result.mode ≡ Modes.Operand }
        ensures frames { result.frames ≡ [] }
        ensures pieces { result.pieces ≡ [] }
    {
        Reader {
            mode: Mode::Operand,
            frames: Frames::new(alloc),
            pieces: Pieces::new(alloc),
        }
    }

    /// Whether nothing but a label's form or `all` may stand here.
    fn is_narrow(&self) -> bool
        ensures { result ≡ Machine.narrow self.now }
    {
        matches!(self.frames.top(), Some(Frame::Top(_)))
    }

    /// One piece more, and then this mode.
    fn pass(&mut self, piece: Piece, mode: Mode) -> Result<bool, NoMemory>
        ensures more { IfOk result (λ more. more ≡ true) }
        ensures reader { OnOk result (self.new ≡ Machine.in_mode mode (Machine.with_piece piece self.old)) }
    {
        self.pieces.push(piece)?;
        self.mode = mode;
        Ok(true)
    }

    /// One more waits for a strategy, behind closed forms.
    fn wait(&mut self, level: u32, frame: Frame) -> Result<bool, NoMemory>
        ensures more { IfOk result (λ more. more ≡ true) }
        ensures reader { OnOk result (self.new ≡ Machine.waits frame (Machine.closed level self.old.frames self.old.pieces)) }
    {
        close(&mut self.frames, &mut self.pieces, level)?;
        self.frames.push(frame)?;
        self.mode = Mode::Operand;
        Ok(true)
    }

    /// `)`
    fn leave(&mut self) -> Result<bool, NoMemory>
        ensures { IfOk result (λ more. Machine.leave (Machine.closed 7 self.old.frames self.old.pieces) ≡ steps_by more self.new) }
    {
        close(&mut self.frames, &mut self.pieces, 7)?;
        match self.frames.top() {
            Some(Frame::Bracket) => {
                self.frames.pop();
                self.mode = Mode::Done;
                Ok(true)
            }
            Some(Frame::Wrapper(place)) => {
                self.frames.pop();
                self.pass(Piece::Wrapped(place), Mode::Done)
            }
            Some(Frame::Top(place)) => {
                self.frames.pop();
                self.pass(Piece::Wrapped(place), Mode::Done)
            }
            _ => Ok(false),
        }
    }

    /// `:`
    fn answer(&mut self) -> Result<bool, NoMemory>
        ensures { IfOk result (λ more. Machine.answer (Machine.closed 7 self.old.frames self.old.pieces) ≡ steps_by more self.new) }
    {
        close(&mut self.frames, &mut self.pieces, 7)?;
        match self.frames.top() {
            Some(Frame::Asked) => {
                self.frames.pop();
                self.frames.push(Frame::Answered)?;
                self.mode = Mode::Operand;
                Ok(true)
            }
            _ => Ok(false),
        }
    }

    /// A word behind a strategy, where any form may stand.
    fn go_on(&mut self, role: Role, at: usize) -> Result<bool, NoMemory>
        requires { Machine.narrow self.old ≡ false }
        ensures { IfOk result (λ more. Machine.follow role at self.old ≡ steps_by more self.new) }
    {
        match role {
            Role::Mark => self.pass(Piece::Marked(at), Mode::Done),
            Role::Joint(level) => self.wait(level, Frame::Left(level, at)),
            Role::Question => self.wait(6, Frame::Asked),
            Role::Colon => self.answer(),
            Role::ClosingRound => self.leave(),
            _ => Ok(false),
        }
    }

    /// A word behind a strategy.
    fn follow(&mut self, role: Role, at: usize) -> Result<bool, NoMemory>
        ensures { IfOk result (λ more. Machine.follow role at self.old ≡ steps_by more self.new) }
    {
        if self.is_narrow() {
            match role {
                Role::ClosingRound => self.leave(),
                _ => Ok(false),
            }
        } else {
            self.go_on(role, at)
        }
    }

    /// A word where a strategy is wanted.
    fn begin(&mut self, beginning: Beginning, at: usize) -> Result<bool, NoMemory>
        requires { at + 1 < 2 ^ 64 }
        ensures { IfOk result (λ more. Machine.begin beginning at self.old ≡ steps_by more self.new) }
    {
        match beginning {
            Beginning::Top | Beginning::Wrapper | Beginning::Name => {
                self.mode = Mode::Named(at, beginning);
                Ok(true)
            }
            Beginning::All => self.pass(Piece::Plain(at), Mode::Done),
            Beginning::Nothing => Ok(false),
            _ => self.begin_wide(beginning, at),
        }
    }

    /// `(`, `idle`, `fail`, or the word of a test.
    fn begin_wide(&mut self, beginning: Beginning, at: usize) -> Result<bool, NoMemory>
        requires room { at + 1 < 2 ^ 64 }
        requires wide { Machine.is_wide beginning ≡ true }
        ensures { IfOk result (λ more. Machine.begin beginning at self.old ≡ steps_by more self.new) }
    {
        if self.is_narrow() {
            return Ok(false);
        }
        match beginning {
            Beginning::Parenthesis => {
                self.frames.push(Frame::Bracket)?;
                self.mode = Mode::Operand;
                Ok(true)
            }
            Beginning::Form => self.pass(Piece::Plain(at), Mode::Done),
            Beginning::Test => self.pass(
                Piece::Test(at),
                Mode::Reading(PartKind::Pattern, at + 1, 0),
            ),
            _ => unreachable!(),
        }
    }

    /// `(` behind the name at `place`.
    fn open_round(
        &mut self,
        beginning: Beginning,
        place: usize,
        at: usize,
    ) -> Result<bool, NoMemory>
        requires { at + 1 < 2 ^ 64 }
        ensures { IfOk result (λ more. Machine.open_round beginning place at self.old ≡ steps_by more self.new) }
    {
        match beginning {
            Beginning::Top => {
                self.frames.push(Frame::Top(place))?;
                self.pass(Piece::Wrapper(place), Mode::Operand)
            }
            Beginning::Wrapper => {
                self.frames.push(Frame::Wrapper(place))?;
                self.pass(Piece::Wrapper(place), Mode::Operand)
            }
            _ => self.pass(
                Piece::Call(place),
                Mode::Reading(PartKind::Argument, at + 1, 0),
            ),
        }
    }

    /// A word behind the name at `place`.
    fn behind_name(
        &mut self,
        role: Role,
        beginning: Beginning,
        place: usize,
        at: usize,
    ) -> Result<bool, NoMemory>
        requires { at + 1 < 2 ^ 64 }
        ensures { IfOk result (λ more. Machine.behind_name role beginning place at self.old ≡ steps_by more self.new) }
    {
        match role {
            Role::OpeningRound => {
                if self.is_narrow() {
                    return Ok(false);
                }
                self.open_round(beginning, place, at)
            }
            Role::OpeningSquare => self.pass(
                Piece::Label(place),
                Mode::Reading(PartKind::Variable, at + 1, 0),
            ),
            _ => {
                self.pieces.push(Piece::Plain(place))?;
                self.follow(role, at)
            }
        }
    }

    /// A word that ends a part of a call or of a label's values.
    fn end_inner(&mut self, kind: PartKind, role: Role, at: usize) -> Result<bool, NoMemory>
        requires room { at + 1 < 2 ^ 64 }
        requires inner { Machine.is_last kind ≡ false }
        ensures { IfOk result (λ more. Machine.end_part kind role at self.old ≡ steps_by more self.new) }
    {
        self.mode = match (kind, role) {
            (PartKind::Argument, Role::Comma) => Mode::Reading(PartKind::Argument, at + 1, 0),
            (PartKind::Argument, Role::ClosingRound) => return self.pass(Piece::Called, Mode::Done),
            (PartKind::Variable, Role::Arrow) => Mode::Reading(PartKind::Value, at + 1, 0),
            (PartKind::Value, Role::Comma) => Mode::Reading(PartKind::Variable, at + 1, 0),
            (PartKind::Value, Role::ClosingSquare) => Mode::Done,
            _ => return Ok(false),
        };
        Ok(true)
    }

    /// A word that ends a part of a test.
    fn end_test(&mut self, kind: PartKind, role: Role, at: usize) -> Result<bool, NoMemory>
        requires room { at + 1 < 2 ^ 64 }
        requires last { Machine.is_last kind ≡ true }
        ensures { IfOk result (λ more. Machine.end_part kind role at self.old ≡ steps_by more self.new) }
    {
        self.mode = match (kind, role) {
            (PartKind::Pattern, Role::Condition) => Mode::Reading(PartKind::Fragment, at + 1, 0),
            (PartKind::Pattern, Role::Such) => Mode::Such,
            (PartKind::Fragment, Role::Conjunction) => Mode::Reading(PartKind::Fragment, at + 1, 0),
            _ => return self.follow(role, at),
        };
        Ok(true)
    }

    /// A word that ends a part, which is one piece more.
    fn end_part(
        &mut self,
        kind: PartKind,
        start: usize,
        role: Role,
        at: usize,
    ) -> Result<bool, NoMemory>
        requires { at + 1 < 2 ^ 64 }
        ensures { IfOk result (λ more. Machine.end_part kind role at (Machine.with_part kind start at self.old) ≡ steps_by more self.new) }
    {
        self.pieces.push(part_piece(kind, Part { start, end: at }))?;
        if is_last(kind) {
            self.end_test(kind, role, at)
        } else {
            self.end_inner(kind, role, at)
        }
    }

    /// A word in a part.
    fn read(
        &mut self,
        kind: PartKind,
        start: usize,
        depth: usize,
        role: Role,
        at: usize,
    ) -> Result<bool, NoMemory>
        requires { at + 1 < 2 ^ 64 }
        ensures { IfOk result (λ more. Machine.read kind start depth role at self.old ≡ steps_by more self.new) }
    {
        if stops(kind, depth, role) {
            if start == at {
                return Ok(false);
            }
            return self.end_part(kind, start, role, at);
        }
        let depth = behind(depth, role)?;
        self.mode = Mode::Reading(kind, start, depth);
        Ok(true)
    }

    /// A word behind `such`.
    fn read_that(&mut self, word: &str, at: usize) -> Result<bool, NoMemory>
        requires { at + 1 < 2 ^ 64 }
        ensures { IfOk result (λ more. Machine.such_step (is word.now (codes "that")) at self.old ≡ steps_by more self.new) }
    {
        if word == "that" {
            self.mode = Mode::Reading(PartKind::Fragment, at + 1, 0);
            Ok(true)
        } else {
            Ok(false)
        }
    }

    /// One word more, at a place. False where no strategy goes on so.
    pub fn step(&mut self, word: &str, at: usize) -> Result<bool, NoMemory>
        requires { at + 1 < 2 ^ 64 }
        ensures { IfOk result (λ more. Machine.next word.now at self.old ≡ steps_by more self.new) }
    {
        match self.mode {
            Mode::Operand => self.begin(beginning_of(word), at),
            Mode::Named(place, beginning) => self.behind_name(role_of(word), beginning, place, at),
            Mode::Done => self.follow(role_of(word), at),
            Mode::Reading(kind, start, depth) => self.read(kind, start, depth, role_of(word), at),
            Mode::Such => self.read_that(word, at),
        }
    }

    /// The pieces, where nothing waits any more.
    fn whole(self) -> Result<Option<Pieces>, NoMemory>
        ensures { IfOk result (λ pieces. Machine.whole (Machine.closed 7 self.frames self.pieces) ≡ pieces) }
    {
        let Reader {
            mode: _,
            mut frames,
            mut pieces,
        } = self;
        close(&mut frames, &mut pieces, 7)?;
        match frames.top() {
            None => Ok(Some(pieces)),
            Some(_) => Ok(None),
        }
    }

    /// The pieces of the whole text, which ends at this place.
    pub fn finish(mut self, end: usize) -> Result<Option<Pieces>, NoMemory>
        ensures { IfOk result (λ pieces. Machine.finished end self ≡ pieces) }
    {
        match self.mode {
            Mode::Named(place, _) => {
                self.pieces.push(Piece::Plain(place))?;
                self.whole()
            }
            Mode::Done => self.whole(),
            Mode::Reading(kind, start, depth) => {
                if is_last(kind) && depth == 0 && start != end {
                    self.pieces.push(part_piece(kind, Part { start, end }))?;
                    self.whole()
                } else {
                    Ok(None)
                }
            }
            _ => Ok(None),
        }
    }

    /// The pieces where the words end in the middle of a text, at this place: the name or the part at hand is one.
    pub fn flush(self, end: usize) -> Result<Pieces, NoMemory>
        ensures { IfOk result (λ pieces. Machine.flushed end self ≡ pieces) }
    {
        let Reader {
            mode,
            frames: _frames,
            mut pieces,
        } = self;
        match mode {
            Mode::Named(place, _) => {
                pieces.push(Piece::Plain(place))?;
                Ok(pieces)
            }
            Mode::Reading(kind, start, depth) => {
                if depth == 0 && start != end {
                    pieces.push(part_piece(kind, Part { start, end }))?;
                    Ok(pieces)
                } else {
                    Ok(pieces)
                }
            }
            _ => Ok(pieces),
        }
    }
}
