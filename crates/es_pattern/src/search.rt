// The search for a pattern: one pass over the text, and one for each lookahead that it comes to.
ghost use Rattle.std.specs.Prelude.{
  ◌≡◌,
  ◌≤◌,
  ◌<◌,
  ℕ,
  Bool,
  IfOk,
  IsTrue,
  ◌↔◌,
  MatchOption,
  OnOk,
  OnSome,
  IfSome,
  length,
  slice_get,
  unwrap_or,
  slice_index,
};
ghost use Rattle.std.specs.Str.{chars};
ghost use Rattle.es_pattern.specs.Spans.{IsFound};
ghost use Rattle.es_pattern.specs.Pieces.{tree_of};
ghost use Rattle.es_pattern.specs.Passing.{stays};
ghost use Rattle.es_pattern.specs.Compiled.{IsProgramOf};

use crate::alive::{Alive, Passing};
use crate::compile::Program;
use crate::passing::{fits, is_boundary};
use crate::piece::{CharRange, Piece};
use crate::step::{Direction, Step};
use crate::turns::Turns;
use crate::walk::Walk;
use std::alloc::{AllocError, Global};
use std::marker::Brand;
use std::sync::ledger::{Blank, Ledger};

// Whether the pattern of these pieces, with their program, is found in the text.
pub(crate) fn is_found(
    alloc: Global,
    pieces: &[Piece],
    program: &Program,
    text: &str,
) -> Result<bool, AllocError>
    requires { IsProgramOf pieces.now program.now }
    ensures { IfOk result (λ found. IsTrue found ↔ IsFound (tree_of pieces.now) (chars text.now)) }
{
    let characters: Vec<char> = text.chars().collect(alloc)?;
    let search = Search {
        alloc,
        pieces,
        program,
        text: &characters,
    };
    search_counted::<Brand>(&search, Blank::new(1))
}

// Whether it is found, with a count of the turns that its clause bounds.
fn search_counted<L: Ledger>(search: &Search<'_>, blank: Blank) -> Result<bool, AllocError>
    requires program { IsProgramOf search.now.pieces.now search.now.program.now }
    requires name { blank.name ≡ L.name }
    requires parts { blank.parts ≡ L.parts }
    requires any { 0 < blank.parts }
    ensures { IfOk result (λ found. IsTrue found
        ↔ IsFound (tree_of search.now.pieces.now) search.now.text.now) }
{
    let mut turns = Turns::<L>::new(blank);
    search.is_found(&mut turns)
}

// For each lookahead that was told whether it holds, by the number of characters behind the place.
type Tables = Vec<Option<Vec<bool>>>;

// A text that is searched, and what it is searched with.
#[derive(Drop)]
struct Search<'a> {
    alloc: Global,
    pieces: &'a [Piece],
    program: &'a Program,
    text: &'a [char],
}

impl<'a> Search<'a> {
    ghost use Rattle.std.specs.Prelude.{
      ◌≡◌,
      ◌||◌,
      ◌≤◌,
      ◌<◌,
      ◌/◌,
      ◌++◌,
      ◌∷◌,
      ◌+◌,
      [],
      ℕ,
      Bool,
      None,
      false,
      IfOk,
      IsTrue,
      IsNone,
      ◌↔◌,
      MatchOption,
      OnOk,
      length,
      replicate,
      slice_get,
      Some,
    };
    ghost use Rattle.std.specs.Global.{Vec};
    ghost use Rattle.es_pattern.specs.Tree.{CharRange};
    ghost use Rattle.es_pattern.specs.Spans.{IsFound, fits};
    ghost use Rattle.es_pattern.specs.Pieces.{tree_of};
    ghost use Rattle.es_pattern.specs.Program.{Runs};
    ghost use Rattle.es_pattern.specs.Passing.{
      AllClassed,
      AllTell,
      IsAsked,
      IsTold,
      IsUntold,
      Passes,
      PassesAs,
      Tells,
      Answers,
      ahead_of,
      class_passing,
      untold_count,
    };
    ghost use Rattle.es_pattern.specs.Alive.{
      ArrivesBy,
      IsIdle,
      PassedBy,
      SettledBy,
      Settling,
      SettlingBy,
      crowd,
      weight,
    };
    ghost use Rattle.es_pattern.specs.Walk.{IsAskedOn, IsReady, SettledOn, SettlingOn};
    ghost use Rattle.es_pattern.specs.NumberSet.{has};
    ghost use Rattle.es_pattern.specs.Begins.{NoneBegins, may_begin, may_stay, may_take, takes_at};
    ghost use Rattle.es_pattern.specs.Compiled.{AllParts, IsProgramOf, part_steps};
    ghost use Rattle.es_pattern.specs.Turns.{pass_turns, search_turns, turns_from, untold_turns};

    // Whether the pattern is found. All walks go on side by side, from each place where one may
    // begin.
    fn is_found<L: Ledger>(&self, turns: &mut Turns<L>) -> Result<bool, AllocError>
        requires { IsProgramOf self.now.pieces.now self.now.program.now }
        ensures found { IfOk result
            (λ found. IsTrue found ↔ IsFound (tree_of self.now.pieces.now) self.now.text.now) }
        // A pass over the text for the whole, and at most one for each lookahead.
        ensures turns { OnOk result (turns.new ≤ turns.old + search_turns
            (length self.now.text.now + 1) self.now.pieces.now) }
    {
        let mut tables = self.no_tables()?;
        let mut alive = Alive::new(self.alloc, self.program.steps.len())?;
        let mut from = 0;
        while let Some(place) = self.next_place(from, &alive) {
            self.begin_at(place, &mut alive)?;
            if self.pass(&mut tables, place, &mut alive, turns)? {
                return Ok(true);
            }
            from = place + 1;
        }
        Ok(false)
    }

    // The next place, from this one on, where a step waits or a walk may begin.
    fn next_place(&self, from: usize, alive: &Alive) -> Option<usize>
        requires { IsProgramOf self.now.pieces.now self.now.program.now }
        ensures { MatchOption result
            (IsIdle (may_begin (tree_of self.now.pieces.now) self.now.text.now) alive.now from
            (length self.now.text.now + 1))
            (λ place. (from ≤ place) × (place ≤ length self.now.text.now)
            × IsIdle (may_begin (tree_of self.now.pieces.now) self.now.text.now) alive.now from
            place) }
    {
        if from > self.text.len() {
            return None;
        }
        if !alive.waiting.is_empty() || self.begins_at(from) {
            return Some(from);
        }
        if !self.begins_later() {
            return None;
        }
        self.next_taking(from + 1)
    }

    // The next place, from this one on, with a character that a walk may begin with.
    fn next_taking(&self, from: usize) -> Option<usize>
        requires program { IsProgramOf self.now.pieces.now self.now.program.now }
        requires later { 0 < from }
        requires within { from ≤ length self.now.text.now + 1 }
        requires moves { may_stay (tree_of self.now.pieces.now) ≡ false }
        ensures { MatchOption result
            (NoneBegins (tree_of self.now.pieces.now) self.now.text.now from
            (length self.now.text.now + 1))
            (λ place. (from ≤ place) × (place ≤ length self.now.text.now)
            × NoneBegins (tree_of self.now.pieces.now) self.now.text.now from place) }
    {
        for place in from..self.text.len() {
            if self.takes_at(place) {
                return Some(place);
            }
        }
        None
    }

    // Lets a walk begin at a place, if one may.
    fn begin_at(&self, place: usize, alive: &mut Alive) -> Result<(), AllocError>
        requires program { IsProgramOf self.now.pieces.now self.now.program.now }
        requires place { place ≤ length self.now.text.now }
        ensures room { length alive.new.taken.words.items ≡ length alive.old.taken.words.items }
        ensures one { OnOk result
            (length alive.new.waiting.items ≤ length alive.old.waiting.items + 1) }
        ensures next { alive.new.next ≡ alive.old.next }
        ensures begun { OnOk result (ArrivesBy Direction.Forward self.now.pieces.now
            self.now.text.now (may_begin (tree_of self.now.pieces.now) self.now.text.now)
            self.now.program.now.steps.items place alive.old
            → SettlingBy Direction.Forward self.now.pieces.now self.now.text.now
            (may_begin (tree_of self.now.pieces.now) self.now.text.now)
            self.now.program.now.steps.items place alive.new) }
    {
        if self.begins_at(place) {
            alive.begin()?;
        }
        Ok(())
    }

    // Whether a walk may begin at a place.
    fn begins_at(&self, place: usize) -> bool
        requires program { IsProgramOf self.now.pieces.now self.now.program.now }
        requires place { place ≤ length self.now.text.now }
        ensures { result ≡ may_begin (tree_of self.now.pieces.now) self.now.text.now place }
    {
        place == 0 || self.program.may_stay || self.takes_at(place)
    }

    // Whether a walk may begin with the character at a place.
    fn takes_at(&self, place: usize) -> bool
        requires { IsProgramOf self.now.pieces.now self.now.program.now }
        ensures { result ≡ takes_at (may_take (tree_of self.now.pieces.now))
            (slice_get self.now.text.now place) }
    {
        match self.text.get(place) {
            Some(c) => self.takes((*c as usize).min(128)),
            None => false,
        }
    }

    fn takes(&self, code: usize) -> bool
        requires program { IsProgramOf self.now.pieces.now self.now.program.now }
        requires code { code ≤ 128 }
        ensures { result ≡ may_take (tree_of self.now.pieces.now) code }
    {
        self.program.begins.get(code).copied().unwrap_or(false)
    }

    // Whether a walk may begin after the text's start.
    fn begins_later(&self) -> bool
        requires { IsProgramOf self.now.pieces.now self.now.program.now }
        ensures { result ≡ may_stay (tree_of self.now.pieces.now) || may_take
            (tree_of self.now.pieces.now) 128 }
    {
        self.program.may_stay || self.takes(128)
    }

    // Takes all steps of the whole that are alive at a place, and goes on to the next; whether the
    // end is among them.
    fn pass<L: Ledger>(
        &self,
        tables: &mut Tables,
        place: usize,
        alive: &mut Alive,
        turns: &mut Turns<L>,
    ) -> Result<bool, AllocError>
        requires program { IsProgramOf self.now.pieces.now self.now.program.now }
        requires told { AllTell self.now.pieces.now self.now.text.now tables.old.items }
        requires place { place ≤ length self.now.text.now }
        requires room { length self.now.program.now.steps.items / 64 < length
            alive.old.taken.words.items }
        ensures told { OnOk result
            (AllTell self.now.pieces.now self.now.text.now tables.new.items) }
        ensures room { length alive.new.taken.words.items ≡ length alive.old.taken.words.items }
        ensures turns { OnOk result (turns.new + untold_turns (length self.now.text.now + 1)
            self.now.pieces.now tables.new.items ≤ turns.old + untold_turns
            (length self.now.text.now + 1) self.now.pieces.now tables.old.items + weight
            (length self.now.program.now.steps.items) alive.old + 1) }
        // At the next place no more steps wait than the program has, and its end.
        ensures few { OnOk result (alive.old.next.items ≡ []
            → length alive.new.waiting.items ≤ length self.now.program.now.steps.items + 1) }
        ensures passed { IfOk result
            (λ ended. (begins : ℕ → Bool) → SettlingBy Direction.Forward self.now.pieces.now
            self.now.text.now begins self.now.program.now.steps.items place alive.old
            → PassedBy self.now.pieces.now self.now.text.now begins
            self.now.program.now.steps.items place ended alive.new) }
    {
        let steps = &self.program.steps;
        self.advance(tables, place, alive, turns)?;
        let ended = alive.taken.contains(steps.len());
        alive.go_on();
        Ok(ended)
    }

    // Room for the tables, none of which is told.
    fn no_tables(&self) -> Result<Tables, AllocError>
        ensures told { IfOk result
            (λ tables. AllTell self.now.pieces.now self.now.text.now tables.items) }
        ensures none { IfOk result
            (λ tables. tables.items ≡ replicate (length self.now.pieces.now) None) }
    {
        let mut tables = Vec::with_capacity(self.alloc, self.pieces.len())?;
        for _piece in self.pieces {
            tables.push(None)?;
        }
        Ok(tables)
    }

    // Takes the steps of the whole that wait at a place and all that follow there, and tells the
    // lookaheads that they come to.
    fn advance<L: Ledger>(
        &self,
        tables: &mut Tables,
        place: usize,
        alive: &mut Alive,
        turns: &mut Turns<L>,
    ) -> Result<(), AllocError>
        requires program { IsProgramOf self.now.pieces.now self.now.program.now }
        requires told { AllTell self.now.pieces.now self.now.text.now tables.old.items }
        requires place { place ≤ length self.now.text.now }
        requires room { length self.now.program.now.steps.items / 64 < length
            alive.old.taken.words.items }
        ensures told { OnOk result
            (AllTell self.now.pieces.now self.now.text.now tables.new.items) }
        ensures room { length alive.new.taken.words.items ≡ length alive.old.taken.words.items }
        ensures turns { OnOk result (turns.new + untold_turns (length self.now.text.now + 1)
            self.now.pieces.now tables.new.items + weight
            (length self.now.program.now.steps.items) alive.new ≤ turns.old + untold_turns
            (length self.now.text.now + 1) self.now.pieces.now tables.old.items + weight
            (length self.now.program.now.steps.items) alive.old + 1) }
        ensures few { OnOk result (crowd (length self.now.program.now.steps.items) alive.new
            ≤ crowd (length self.now.program.now.steps.items) alive.old) }
        ensures settled { OnOk result
            ((begins : ℕ → Bool) → SettlingBy Direction.Forward self.now.pieces.now
            self.now.text.now begins self.now.program.now.steps.items place alive.old
            → SettledBy Direction.Forward self.now.pieces.now self.now.text.now begins
            self.now.program.now.steps.items place alive.new) }
    {
        while let Some(number) = self.settle(
            &Walk {
                direction: Direction::Forward,
                steps: &self.program.steps,
                tables,
                place,
            },
            alive,
            turns,
        )? {
            self.tell(tables, number, turns)?;
        }
        Ok(())
    }

    // Tells a lookahead, after those within it.
    fn tell<L: Ledger>(
        &self,
        tables: &mut Tables,
        number: usize,
        turns: &mut Turns<L>,
    ) -> Result<(), AllocError>
        requires program { IsProgramOf self.now.pieces.now self.now.program.now }
        requires told { AllTell self.now.pieces.now self.now.text.now tables.old.items }
        requires untold { IsUntold self.now.pieces.now tables.old.items number }
        ensures told { OnOk result
            (AllTell self.now.pieces.now self.now.text.now tables.new.items) }
        ensures fewer { OnOk result
            (untold_count tables.new.items < untold_count tables.old.items) }
        ensures turns { OnOk result (turns.new + turns_from (length self.now.text.now + 1)
            self.now.pieces.now 0 tables.new.items ≤ turns.old + turns_from
            (length self.now.text.now + 1) self.now.pieces.now 0 tables.old.items) }
    {
        let first = self.first_within(number);
        for inner in first..number + 1 {
            self.tell_one(tables, inner, turns)?;
        }
        Ok(())
    }

    // A number from which on all pieces up to a lookahead stand within it, and none before stands
    // there.
    fn first_within(&self, number: usize) -> usize
        requires parts { AllParts self.now.pieces.now self.now.program.now.lookaheads.items }
        requires stands { number < length self.now.pieces.now }
        ensures before { result ≤ number }
        ensures all { (k at inner : ℕ) (negated : Bool) → result ≤ k → k ≤ number
            → slice_get self.now.pieces.now k ≡ Some (Piece.Lookahead negated)
            → slice_get (part_steps Direction.Backward self.now.pieces.now k) at
            ≡ Some (Step.Pass inner) → result ≤ inner }
    {
        let mut first = number;
        for passed in 0..number + 1 {
            first = self.first_below(number - passed, first);
        }
        first
    }

    // The least number of a piece that the piece `inner` asks, up to `first`; `first` itself where
    // the piece stands before that.
    fn first_below(&self, inner: usize, first: usize) -> usize
        requires { AllParts self.now.pieces.now self.now.program.now.lookaheads.items }
        ensures before { result ≤ first }
        ensures outside { inner < first → result ≡ first }
        ensures least { first ≤ inner → (at asked : ℕ) (negated : Bool)
            → slice_get self.now.pieces.now inner ≡ Some (Piece.Lookahead negated)
            → slice_get (part_steps Direction.Backward self.now.pieces.now inner) at
            ≡ Some (Step.Pass asked) → result ≤ asked }
    {
        match self.program.lookaheads.get(inner) {
            Some(steps) if first <= inner => first_passed(steps, first),
            _ => first,
        }
    }

    // Tells the piece of this number, where it's a lookahead that isn't told yet.
    fn tell_one<L: Ledger>(
        &self,
        tables: &mut Tables,
        number: usize,
        turns: &mut Turns<L>,
    ) -> Result<(), AllocError>
        requires program { IsProgramOf self.now.pieces.now self.now.program.now }
        requires told { AllTell self.now.pieces.now self.now.text.now tables.old.items }
        requires ready { (negated : Bool) → slice_get self.now.pieces.now number
            ≡ Some (Piece.Lookahead negated)
            → (k : ℕ) → IsAsked self.now.pieces.now tables.old.items
            (part_steps Direction.Backward self.now.pieces.now number) k → ⊥ }
        ensures told { OnOk result
            (AllTell self.now.pieces.now self.now.text.now tables.new.items) }
        ensures kept { (k : ℕ) → IsTold tables.old.items k → IsTold tables.new.items k }
        ensures now { OnOk result ((negated : Bool) → slice_get self.now.pieces.now number
            ≡ Some (Piece.Lookahead negated) → IsTold tables.new.items number) }
        ensures turns { OnOk result (turns.new + turns_from (length self.now.text.now + 1)
            self.now.pieces.now 0 tables.new.items ≤ turns.old + turns_from
            (length self.now.text.now + 1) self.now.pieces.now 0 tables.old.items) }
    {
        let Some(Piece::Lookahead { negated }) = self.pieces.get(number) else {
            return Ok(());
        };
        if tables[number].is_none() {
            let table = self.table_of(tables, *negated, number, turns)?;
            tables[number] = Some(table);
        }
        Ok(())
    }

    // For each number of characters behind a place whether the lookahead holds there.
    fn table_of<L: Ledger>(
        &self,
        tables: &[Option<Vec<bool>>],
        negated: bool,
        number: usize,
        turns: &mut Turns<L>,
    ) -> Result<Vec<bool>, AllocError>
        requires program { IsProgramOf self.now.pieces.now self.now.program.now }
        requires told { AllTell self.now.pieces.now self.now.text.now tables.now }
        requires ready { (k : ℕ)
            → IsAsked self.now.pieces.now tables.now
            (part_steps Direction.Backward self.now.pieces.now number) k → ⊥ }
        requires stands { slice_get self.now.pieces.now number ≡ Some (Piece.Lookahead negated) }
        ensures table { IfOk result
            (λ table. Tells self.now.pieces.now self.now.text.now number table.items) }
        ensures turns { OnOk result (turns.new ≤ turns.old + pass_turns
            (length self.now.text.now + 1)
            (length (part_steps Direction.Backward self.now.pieces.now number))) }
    {
        let steps = &self.program.lookaheads[number];
        let mut alive = Alive::new(self.alloc, steps.len())?;
        let mut table = Vec::new(self.alloc);
        for behind in 0..self.text.len() + 1 {
            let place = self.text.len() - behind;
            alive.begin()?;
            let walk = Walk {
                direction: Direction::Backward,
                steps,
                tables,
                place,
            };
            let _asked = self.settle(&walk, &mut alive, turns)?;
            table.push(negated != alive.taken.contains(steps.len()))?;
            alive.go_on();
        }
        Ok(table)
    }

    // Takes the steps that wait at a walk's place and all that follow there, up to a lookahead that
    // has to be told first.
    fn settle<L: Ledger>(
        &self,
        walk: &Walk<'_>,
        alive: &mut Alive,
        turns: &mut Turns<L>,
    ) -> Result<Option<usize>, AllocError>
        requires ready { IsReady self.now.pieces.now self.now.text.now
            self.now.program.now.classes.items walk.now }
        requires room { length walk.now.steps.now / 64 < length alive.old.taken.words.items }
        ensures asked { IfOk result
            (λ asked. MatchOption asked (Unit {0}) (IsAskedOn self.now.pieces.now walk.now)) }
        ensures room { length alive.new.taken.words.items ≡ length alive.old.taken.words.items }
        ensures settled { IfOk result (λ asked. (begins : ℕ → Bool)
            → SettlingOn self.now.pieces.now self.now.text.now begins walk.now alive.old
            → MatchOption asked
            (SettledOn self.now.pieces.now self.now.text.now begins walk.now alive.new)
            (λ _. SettlingOn self.now.pieces.now self.now.text.now begins walk.now alive.new)) }
        ensures few { OnOk result (crowd (length walk.now.steps.now) alive.new
            ≤ crowd (length walk.now.steps.now) alive.old) }
        ensures turns { OnOk result (turns.new + weight (length walk.now.steps.now) alive.new
            ≤ turns.old + weight (length walk.now.steps.now) alive.old + 1) }
    {
        while let Some(at) = alive.waiting.pop() {
            turns.tick();
            if !alive.taken.contains(at) {
                let asked = self.take(walk, at, alive)?;
                if asked.is_some() {
                    return Ok(asked);
                }
            }
        }
        Ok(None)
    }

    // Takes a step that waited, unless it passes a lookahead that has to be told first: it waits
    // again then.
    fn take(
        &self,
        walk: &Walk<'_>,
        at: usize,
        alive: &mut Alive,
    ) -> Result<Option<usize>, AllocError>
        requires ready { IsReady self.now.pieces.now self.now.text.now
            self.now.program.now.classes.items walk.now }
        requires room { length walk.now.steps.now / 64 < length alive.old.taken.words.items }
        requires fresh { has alive.old.taken.words.items at ≡ false }
        ensures asked { IfOk result
            (λ asked. MatchOption asked (Unit {0}) (IsAskedOn self.now.pieces.now walk.now)) }
        ensures room { length alive.new.taken.words.items ≡ length alive.old.taken.words.items }
        ensures taken { OnOk result ((begins : ℕ → Bool)
            → Settling walk.now.direction
            (Passes walk.now.direction self.now.pieces.now self.now.text.now) begins
            walk.now.steps.now walk.now.place (alive.old.waiting.items ++ at ∷ [])
            alive.old.taken.words.items alive.old.next.items
            → SettlingOn self.now.pieces.now self.now.text.now begins walk.now alive.new) }
        // It is taken once at a place, and at most two others wait for it there.
        ensures lighter { IfOk result (λ asked. IsNone asked
            → weight (length walk.now.steps.now) alive.new
            ≤ weight (length walk.now.steps.now) alive.old) }
        ensures again { OnOk result (weight (length walk.now.steps.now) alive.new
            ≤ weight (length walk.now.steps.now) alive.old + 1) }
        ensures few { OnOk result (crowd (length walk.now.steps.now) alive.new
            ≤ crowd (length walk.now.steps.now) alive.old) }
    {
        let Some(step) = walk.steps.get(at) else {
            alive.taken.insert(at);
            return Ok(None);
        };
        let mut passing = Passing::Stops;
        if let Step::Pass(number) = step {
            let Some(told) = self.passing(walk, *number) else {
                alive.waiting.push(at)?;
                return Ok(Some(*number));
            };
            passing = told;
        }
        alive.take(*step, passing, at, walk.steps.len())?;
        Ok(None)
    }

    // What the piece of this number does at a walk's place, unless it's a lookahead that has to be
    // told first.
    fn passing(&self, walk: &Walk<'_>, number: usize) -> Option<Passing>
        requires { IsReady self.now.pieces.now self.now.text.now
            self.now.program.now.classes.items walk.now }
        ensures { MatchOption result (IsUntold self.now.pieces.now walk.now.tables.now number)
            (PassesAs walk.now.direction self.now.pieces.now self.now.text.now number
            walk.now.place) }
    {
        let Some(piece) = self.pieces.get(number) else {
            return Some(Passing::Stops);
        };
        let holds = match piece {
            Piece::OneOf { negated, ranges } => {
                let next = walk.ahead(self.text);
                return Some(self.passing_class(number, *negated, ranges, next));
            }
            Piece::TextStart => walk.place == 0,
            Piece::TextEnd => walk.place == self.text.len(),
            Piece::WordBoundary { negated } => is_boundary(self.text, walk.place) != *negated,
            Piece::Lookahead { .. } => self.told(walk.tables, number, walk.place)?,
            _ => false,
        };
        Some(stays_if(holds))
    }

    // What a lookahead's table has for a place, where there is one.
    fn told(&self, tables: &[Option<Vec<bool>>], number: usize, place: usize) -> Option<bool>
        requires told { AllTell self.now.pieces.now self.now.text.now tables.now }
        requires place { place ≤ length self.now.text.now }
        ensures { (negated : Bool) → slice_get self.now.pieces.now number
            ≡ Some (Piece.Lookahead negated)
            → MatchOption result (slice_get tables.now number ≡ Some None)
            (Answers self.now.pieces.now self.now.text.now number place) }
    {
        let Some(table) = tables.get(number) else {
            return None;
        };
        match table {
            Some(table) => {
                let behind = self.text.len() - place;
                Some(table.get(behind).copied().unwrap_or(false))
            }
            None => None,
        }
    }

    // What a class does before a character, or before none.
    fn passing_class(
        &self,
        number: usize,
        negated: bool,
        ranges: &[CharRange],
        next: Option<char>,
    ) -> Passing
        requires classed { (c : ℕ) (class : Vec Bool)
            → slice_get self.now.program.now.classes.items number ≡ Some class → c < 128
            → slice_get class.items c ≡ Some (fits negated ranges.now c) }
        ensures { result ≡ class_passing negated ranges.now next }
    {
        match next {
            Some(c) if self.fits(number, negated, ranges, c) => Passing::Moves,
            _ => Passing::Stops,
        }
    }

    // Whether a character fits a class, by the table of ASCII where it's one of those.
    fn fits(&self, number: usize, negated: bool, ranges: &[CharRange], c: char) -> bool
        requires classed { (c : ℕ) (class : Vec Bool)
            → slice_get self.now.program.now.classes.items number ≡ Some class → c < 128
            → slice_get class.items c ≡ Some (fits negated ranges.now c) }
        ensures { result ≡ fits negated ranges.now c }
    {
        match self.program.classes.get(number) {
            Some(class) if c.is_ascii() => class.get(c as usize).copied().unwrap_or(false),
            _ => fits(negated, ranges, c),
        }
    }
}

// The least number of a piece that the steps pass, up to `first`.
fn first_passed(steps: &[Step], first: usize) -> usize
    ensures before { result ≤ first }
    ensures least { (at number : ℕ) → slice_get steps.now at ≡ Some (Step.Pass number)
        → result ≤ number }
{
    let mut least = first;
    for step in steps {
        if let Step::Pass(number) = step {
            least = least.min(*number);
        }
    }
    least
}

// What a piece that spans the empty part does.
fn stays_if(holds: bool) -> Passing
    ensures { result ≡ stays holds }
{
    if holds {
        Passing::Stays
    } else {
        Passing::Stops
    }
}
