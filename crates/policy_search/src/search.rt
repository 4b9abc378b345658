ghost use Rattle.std.specs.Prelude.{◌≡◌, ◌<◌, ℕ, List, Some, None, true, IfOk, OnOk, length};
ghost use Rattle.policy_search.specs.Closed.{AllGoOn, AreDone, AreOrdered, GoesOn, HasGrown, IsDone};
ghost use Rattle.pattern_match.specs.Onwards.{AreTextBytes};
ghost use Rattle.policy_lists.specs.Lists.{AreWithin};
ghost use Rattle.policy_search.specs.Closed.{IsDropped, Reaches};
ghost use Rattle.policy_search.specs.Stages.{stage_behind};
ghost use Rattle.policy_search.specs.declared.stage.Stage.TheVariants.{Empty};
ghost use Rattle.policy_search.specs.Places.{IsAt, IsReached, IsSearch, place_at, policies};
ghost use Rattle.policy_lists.specs.Lines.{decided};
ghost use Rattle.policy_lists.specs.Numbered.{lists_in};

use crate::place::Place;
use crate::stage::Stage;
use label_base::{Asked, OutOfMemory};
use policy_lists::{Line, Lists, Rows};
use std::alloc::Global;

/// From which places a search goes on.
#[derive(Clone, Copy)]
pub enum Wanted {
    All,
    /// From those whose lists are different: where they are the same, nothing behind them differs.
    Different,
    /// From those where some line of the first policy can still decide.
    First,
}

/// What is searched: two policies, each as the order in which its lines decide.
#[derive(Clone, Copy)]
pub struct Aims<'a> {
    pub lines: &'a [Line],
    pub first: &'a [u32],
    pub second: &'a [u32],
}

/// The places that were reached.
#[derive(Drop)]
pub struct Search {
    pub lists: Lists,
    pub(crate) keys: Rows,
    pub places: Vec<Place>,
}

impl Search {
    /// The place before the first byte.
    pub fn new(alloc: Global, aims: &Aims<'_>) -> Result<Search, OutOfMemory>
        requires first { AreWithin (length aims.now.lines.now) aims.now.first.now }
        requires second { AreWithin (length aims.now.lines.now) aims.now.second.now }
        ensures search { IfOk result (λ search. IsSearch (policies aims.now) search) }
        ensures some { IfOk result (λ search. 0 < length search.places.items) }
        ensures ordered { IfOk result (λ search. AreOrdered search.places.items 0) }
    {
        let lines = aims.lines;
        let mut lists = Lists::new(alloc, lines)?;
        let first = lists.start(alloc, lines, aims.first)?;
        let second = lists.start(alloc, lines, aims.second)?;
        let place = Place {
            stage: Stage::Empty,
            first,
            second,
            parent: 0,
            byte: 0,
            depth: 0,
        };
        let mut search = Search {
            lists,
            keys: Rows::new(alloc),
            places: Vec::new(alloc),
        };
        search.reach(alloc, place)?;
        Ok(search)
    }

    // Whether a search doesn't go on from a place.
    fn is_dropped(&self, wanted: Wanted, from: usize) -> bool
        requires from { from < length self.now.places.items }
        requires first { (place_at self.now.places.items from).first
            < length (lists_in self.now.lists) }
        ensures { result ≡ true → IsDropped wanted (lists_in self.now.lists)
            (place_at self.now.places.items from) }
    {
        let place = self.places[from];
        match wanted {
            Wanted::All => false,
            Wanted::Different => place.first == place.second,
            Wanted::First => self.lists.has_none(place.first),
        }
    }

    // Notes a place, unless one with the same lists and stage is known.
    fn reach(&mut self, alloc: Global, place: Place) -> Result<(), OutOfMemory>
        requires { length self.old.keys ≡ length self.old.places.items }
        ensures lists { self.new.lists ≡ self.old.lists }
        ensures reached { OnOk result (IsReached self.old.keys self.new.keys
            self.old.places.items self.new.places.items place) }
    {
        let key = [
            place.stage.number(),
            place.first as u64,
            place.second as u64,
        ];
        let number = self.keys.number_of(alloc, key.as_slice())?;
        if number < self.places.len() {
            return Ok(());
        }
        self.places.push(place)?;
        Ok(())
    }

    // Goes on from a place by a byte.
    fn go_by(
        &mut self,
        alloc: Global,
        aims: &Aims<'_>,
        from: usize,
        byte: u8,
    ) -> Result<(), OutOfMemory>
        requires search { IsSearch (policies aims.now) self.old }
        requires from { from < length self.old.places.items }
        requires ordered { AreOrdered self.old.places.items from }
        requires some { 0 < byte }
        ensures search { OnOk result (IsSearch (policies aims.now) self.new) }
        ensures ordered { OnOk result (AreOrdered self.new.places.items from) }
        ensures grown { OnOk result (HasGrown self.old self.new) }
        ensures goes { OnOk result (GoesOn (policies aims.now) (lists_in self.new.lists)
            self.new.places.items byte (place_at self.new.places.items from)) }
    {
        let place = self.places[from];
        let Some(stage) = place.stage.next(byte) else {
            return Ok(());
        };
        let lines = aims.lines;
        let first = self.lists.step(alloc, lines, place.first, byte)?;
        let second = self.lists.step(alloc, lines, place.second, byte)?;
        let next = Place {
            stage,
            first,
            second,
            parent: from,
            byte,
            depth: place.depth + 1,
        };
        self.reach(alloc, next)?;
        Ok(())
    }

    // Goes on from a place by each byte that texts have.
    fn expand(&mut self, alloc: Global, aims: &Aims<'_>, from: usize) -> Result<(), OutOfMemory>
        requires search { IsSearch (policies aims.now) self.old }
        requires from { from < length self.old.places.items }
        requires ordered { AreOrdered self.old.places.items from }
        ensures search { OnOk result (IsSearch (policies aims.now) self.new) }
        ensures ordered { OnOk result (AreOrdered self.new.places.items from) }
        ensures grown { OnOk result (HasGrown self.old self.new) }
        ensures goes { OnOk result (AllGoOn (policies aims.now) (lists_in self.new.lists)
            self.new.places.items (place_at self.new.places.items from)) }
    {
        'bytes: for i in 1..256usize {
            self.go_by(alloc, aims, from, i as u8)?;
        }
        Ok(())
    }

    // Goes on from a place, if it is one from which a search goes on.
    fn visit(
        &mut self,
        alloc: Global,
        aims: &Aims<'_>,
        wanted: Wanted,
        from: usize,
    ) -> Result<(), OutOfMemory>
        requires search { IsSearch (policies aims.now) self.old }
        requires from { from < length self.old.places.items }
        requires ordered { AreOrdered self.old.places.items from }
        ensures search { OnOk result (IsSearch (policies aims.now) self.new) }
        ensures ordered { OnOk result (AreOrdered self.new.places.items from) }
        ensures grown { OnOk result (HasGrown self.old self.new) }
        ensures done { OnOk result (IsDone wanted (policies aims.now) (lists_in self.new.lists)
            self.new.places.items (place_at self.new.places.items from)) }
    {
        if self.is_dropped(wanted, from) {
            return Ok(());
        }
        self.expand(alloc, aims, from)?;
        Ok(())
    }

    /// Goes on from each place that was reached, and from those that are reached then, as long as
    /// there are at most so many. False where there are more.
    pub fn run(
        &mut self,
        alloc: Global,
        aims: &Aims<'_>,
        wanted: Wanted,
        most: usize,
    ) -> Result<bool, OutOfMemory>
        requires search { IsSearch (policies aims.now) self.old }
        requires some { 0 < length self.old.places.items }
        requires ordered { AreOrdered self.old.places.items 0 }
        ensures search { OnOk result (IsSearch (policies aims.now) self.new) }
        ensures grown { OnOk result (HasGrown self.old self.new) }
        ensures all { IfOk result (λ whole. whole ≡ true → AreDone wanted (policies aims.now)
            (lists_in self.new.lists) self.new.places.items (length self.new.places.items)) }
        ensures reached { IfOk result (λ whole. whole ≡ true → (text : List ℕ)
            → AreTextBytes text → (stage_behind (Some Empty) text ≡ None → ⊥)
            → Reaches wanted (policies aims.now) (lists_in self.new.lists)
            self.new.places.items text) }
    {
        'places: for from in 0..most {
            if from == self.places.len() {
                return Ok(true);
            }
            if self.places.len() > most {
                return Ok(false);
            }
            self.visit(alloc, aims, wanted, from)?;
        }
        Ok(false)
    }

    /// The line of the first policy that decides behind the texts of a place.
    pub fn first(&self, aims: &Aims<'_>, place: usize, asked: Asked) -> Option<usize>
        requires search { IsSearch (policies aims.now) self.now }
        requires place { place < length self.now.places.items }
        ensures { (text : List ℕ) → IsAt (policies aims.now) (lists_in self.now.lists)
            (place_at self.now.places.items place) text
            → result ≡ decided aims.now.lines.now aims.now.first.now asked text }
    {
        let at = self.places[place];
        self.lists.decides(aims.lines, at.first, asked)
    }

    /// The line of the second policy that decides behind the texts of a place.
    pub fn second(&self, aims: &Aims<'_>, place: usize, asked: Asked) -> Option<usize>
        requires search { IsSearch (policies aims.now) self.now }
        requires place { place < length self.now.places.items }
        ensures { (text : List ℕ) → IsAt (policies aims.now) (lists_in self.now.lists)
            (place_at self.now.places.items place) text
            → result ≡ decided aims.now.lines.now aims.now.second.now asked text }
    {
        let at = self.places[place];
        self.lists.decides(aims.lines, at.second, asked)
    }
}
