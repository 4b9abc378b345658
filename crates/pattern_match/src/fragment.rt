ghost use Rattle.std.specs.Prelude.{◌≡◌, ◌++◌, ◌&&◌, ◌||◌, ◌==◌, not, true, IfOk, OnOk, [], map};
ghost use Rattle.std.specs.Prelude.{length, if◌then◌else◌};
ghost use Rattle.pattern_match.specs.Automaton.{moved, followed, bare, single_place, both};
ghost use Rattle.pattern_match.specs.Automaton.{both_live, either_automaton, looped, up, copies};
ghost use Rattle.pattern_match.specs.Automaton.{endless, repeated_automaton, all_places};
ghost use Rattle.pattern_match.specs.Residuals.{is_count, is_some_list};

use crate::class::Class;
use crate::position::{Position, count, sum};
use label_base::OutOfMemory;
use std::alloc::Global;
use std::marker::Model;

/// The position automaton of a part of a pattern, under construction.
#[derive(Drop)]
pub struct Fragment {
    positions: Vec<Position>,
    first: Vec<u32>,
    holds_empty: bool,
    is_live: bool,
}

impl Model for Fragment {
    ghost use Rattle.pattern_match.specs.Automaton.{Automaton};

    ghost Value = { Automaton };

    ghost view = { λ f. record {
      places = f.positions.items;
      first = f.first.items;
      holds_empty = f.holds_empty;
      is_live = f.is_live;
    } };
}

// Lets another part follow, of which the first positions are given.
fn follow_each(
    positions: &mut Vec<Position>,
    holds_empty: bool,
    first: &[u32],
) -> Result<(), OutOfMemory>
    ensures { OnOk result (positions.new.items
        ≡ map (followed holds_empty first.now) positions.old.items) }
{
    for position in positions.iter_mut() {
        position.follow(holds_empty, first)?;
    }
    Ok(())
}

// Adds positions that were counted from 0, and are counted from a later place on.
fn append_moved(
    positions: &mut Vec<Position>,
    others: Vec<Position>,
    by: u32,
) -> Result<(), OutOfMemory>
    ensures { OnOk result (positions.new.items
        ≡ positions.old.items ++ map (moved by) others.items) }
{
    for other in others {
        let mut position = other;
        position.move_up(by)?;
        positions.push(position)?;
    }
    Ok(())
}

// Positions, and others behind them.
fn joined(positions: Vec<Position>, others: Vec<Position>) -> Result<Vec<Position>, OutOfMemory>
    ensures { IfOk result (λ all. all.items
        ≡ positions.items ++ map (moved (length positions.items)) others.items) }
{
    let by = count(positions.len())?;
    if by == 0 {
        return Ok(others);
    }
    let mut all = positions;
    append_moved(&mut all, others, by)?;
    Ok(all)
}

// The numbers, counted from a later place on.
fn counted_up(alloc: Global, numbers: &[u32], by: u32) -> Result<Vec<u32>, OutOfMemory>
    ensures { IfOk result (λ counted. counted.items ≡ up by numbers.now) }
{
    let mut counted = Vec::new(alloc);
    for number in numbers {
        counted.push(sum(*number, by)?)?;
    }
    Ok(counted)
}

// The first positions of two parts in turn.
fn first_of(is_optional: bool, first: Vec<u32>, later: &[u32]) -> Result<Vec<u32>, OutOfMemory>
    ensures { IfOk result (λ all. all.items
        ≡ (if is_optional then first.items ++ later.now else first.items)) }
{
    if !is_optional {
        return Ok(first);
    }
    let mut all = first;
    all.extend_from_slice(later)?;
    Ok(all)
}

// Adds a copy of a piece, which is counted from 0, and lets another part follow it.
fn append_copy(
    alloc: Global,
    positions: &mut Vec<Position>,
    piece: &[Position],
    holds_empty: bool,
    first: &[u32],
) -> Result<(), OutOfMemory>
    ensures { OnOk result (positions.new.items
        ≡ positions.old.items
        ++ map (moved (length positions.old.items))
        (map (followed holds_empty first.now) piece.now)) }
{
    let by = count(positions.len())?;
    'piece: for position in piece {
        let mut copy = position.copy(alloc)?;
        copy.follow(holds_empty, first)?;
        copy.move_up(by)?;
        positions.push(copy)?;
    }
    Ok(())
}

impl Fragment {
    ghost use Rattle.pattern_match.specs.Class.{class_bytes};

    /// No position: the empty text alone, or no text at all.
    pub fn bare(alloc: Global, holds_empty: bool) -> Fragment
        ensures { result ≡ bare holds_empty }
    {
        Fragment {
            positions: Vec::new(alloc),
            first: Vec::new(alloc),
            holds_empty,
            is_live: holds_empty,
        }
    }

    /// One byte of a class.
    pub fn single(alloc: Global, class: Class) -> Result<Fragment, OutOfMemory>
        ensures { IfOk result (λ fragment. fragment ≡ single_place (class_bytes class)) }
    {
        if !class.is_some() {
            return Ok(Fragment::bare(alloc, false));
        }
        let mut positions = Vec::new(alloc);
        positions.push(Position::new(alloc, class))?;
        let mut first = Vec::new(alloc);
        first.push(0)?;
        Ok(Fragment {
            positions,
            first,
            holds_empty: false,
            is_live: true,
        })
    }

    /// Whether it holds the empty text alone.
    pub fn is_bare(&self) -> bool
        ensures { result ≡ (not (is_some_list self.now.places) && self.now.holds_empty) }
    {
        self.positions.is_empty() && self.holds_empty
    }

    /// The positions, and the one before the first byte at the end.
    pub fn into_positions(self, alloc: Global) -> Result<Vec<Position>, OutOfMemory>
        ensures { IfOk result (λ positions. positions.items ≡ all_places self) }
    {
        if !self.is_live {
            return Ok(Vec::new(alloc));
        }
        let Fragment {
            mut positions,
            first,
            holds_empty,
            is_live: _,
        } = self;
        positions.push(Position::start(holds_empty, first))?;
        Ok(positions)
    }

    /// The one, and the other behind it.
    pub fn both(self, alloc: Global, second: Fragment) -> Result<Fragment, OutOfMemory>
        ensures { IfOk result (λ fragment. fragment ≡ both self second) }
    {
        if !self.is_live {
            return Ok(Fragment::bare(alloc, false));
        }
        if !second.is_live {
            return Ok(Fragment::bare(alloc, false));
        }
        self.both_live(alloc, second)
    }

    fn both_live(self, alloc: Global, second: Fragment) -> Result<Fragment, OutOfMemory>
        ensures { IfOk result (λ fragment. fragment ≡ both_live self second) }
    {
        let holds_empty = self.holds_empty && second.holds_empty;
        let Fragment {
            mut positions,
            first,
            holds_empty: is_optional,
            is_live: _,
        } = self;
        let by = count(positions.len())?;
        let later = counted_up(alloc, second.first.as_slice(), by)?;
        follow_each(&mut positions, second.holds_empty, later.as_slice())?;
        Ok(Fragment {
            positions: joined(positions, second.positions)?,
            first: first_of(is_optional, first, later.as_slice())?,
            holds_empty,
            is_live: true,
        })
    }

    /// The one or the other.
    pub fn either(self, alloc: Global, right: Fragment) -> Result<Fragment, OutOfMemory>
        ensures { IfOk result (λ fragment. fragment ≡ either_automaton self right) }
    {
        let Fragment {
            positions,
            mut first,
            holds_empty,
            is_live,
        } = self;
        let by = count(positions.len())?;
        let later = counted_up(alloc, right.first.as_slice(), by)?;
        first.extend_from_slice(later.as_slice())?;
        Ok(Fragment {
            positions: joined(positions, right.positions)?,
            first,
            holds_empty: holds_empty || right.holds_empty,
            is_live: is_live || right.is_live,
        })
    }

    // The piece of a repeat, as often as one likes.
    fn looped(self, holds_empty: bool) -> Result<Fragment, OutOfMemory>
        ensures { IfOk result (λ fragment. fragment ≡ looped holds_empty self) }
    {
        let Fragment {
            mut positions,
            first,
            holds_empty: _,
            is_live: _,
        } = self;
        follow_each(&mut positions, true, first.as_slice())?;
        Ok(Fragment {
            positions,
            first,
            holds_empty,
            is_live: true,
        })
    }

    // The first positions, as they are counted behind one copy.
    fn first_behind_a_copy(&self, alloc: Global) -> Result<Vec<u32>, OutOfMemory>
        ensures { IfOk result (λ first.
            first.items ≡ up (length self.now.places) self.now.first) }
    {
        let by = count(self.positions.len())?;
        let first = counted_up(alloc, self.first.as_slice(), by)?;
        Ok(first)
    }

    // The piece from `least` to `most` times.
    fn copies(self, alloc: Global, least: u32, most: u32) -> Result<Fragment, OutOfMemory>
        ensures { IfOk result (λ fragment. fragment ≡ copies least most self) }
    {
        if most == 0 {
            return Ok(Fragment::bare(alloc, true));
        }
        let later = self.first_behind_a_copy(alloc)?;
        let Fragment {
            positions: piece,
            first,
            holds_empty,
            is_live: _,
        } = self;
        let mut positions = Vec::new(alloc);
        'copies: for done in 0..most - 1 {
            let can_stop = may_stop(least.saturating_sub(done + 1), holds_empty);
            append_copy(
                alloc,
                &mut positions,
                piece.as_slice(),
                can_stop,
                later.as_slice(),
            )?;
        }
        append_copy(alloc, &mut positions, piece.as_slice(), true, &[])?;
        Ok(Fragment {
            positions,
            first,
            holds_empty: may_stop(least, holds_empty),
            is_live: true,
        })
    }

    // The piece `least` times or more often.
    fn endless(self, alloc: Global, least: u32) -> Result<Fragment, OutOfMemory>
        ensures { IfOk result (λ fragment. fragment ≡ endless least self) }
    {
        if least == 0 {
            return self.looped(true);
        }
        let later = self.first_behind_a_copy(alloc)?;
        let Fragment {
            positions: piece,
            first,
            holds_empty,
            is_live: _,
        } = self;
        let mut positions = Vec::new(alloc);
        'copies: for _done in 0..least - 1 {
            append_copy(
                alloc,
                &mut positions,
                piece.as_slice(),
                holds_empty,
                later.as_slice(),
            )?;
        }
        append_copy(
            alloc,
            &mut positions,
            piece.as_slice(),
            true,
            first.as_slice(),
        )?;
        Ok(Fragment {
            positions,
            first,
            holds_empty,
            is_live: true,
        })
    }

    /// The piece from `least` to `most` times, or without an upper number.
    pub fn repeated(
        self,
        alloc: Global,
        least: u32,
        most: Option<u32>,
    ) -> Result<Fragment, OutOfMemory>
        ensures { IfOk result (λ fragment. fragment ≡ repeated_automaton least most self) }
    {
        if !is_count(least, most) {
            return Ok(Fragment::bare(alloc, false));
        }
        if self.positions.is_empty() {
            return Ok(Fragment::bare(alloc, may_stop(least, self.holds_empty)));
        }
        match most {
            Some(most) => self.copies(alloc, least, most),
            None => self.endless(alloc, least),
        }
    }
}

// Whether a repeat can end here.
fn may_stop(least: u32, holds_empty: bool) -> bool
    ensures { result ≡ ((least == 0) || holds_empty) }
{
    least == 0 || holds_empty
}

// Whether some number of times is allowed.
fn is_count(least: u32, most: Option<u32>) -> bool
    ensures { result ≡ is_count least most }
{
    match most {
        Some(most) => least <= most,
        None => true,
    }
}
