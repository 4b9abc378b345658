ghost use Rattle.std.specs.Prelude.{◌≡◌, ◌++◌, ◌∷◌, [], filter, length, take, ◌≤◌, IfOk, OnOk};
ghost use Rattle.std.specs.List.{list_all};
ghost use Rattle.spec_order.specs.Order.{is_exact_spec, is_pattern_spec, in_order};

use label_base::{OutOfMemory, Row};
use pattern_syntax::is_exact;
use spec_reader::Spec;
use std::alloc::Global;

/// The specifications of file_contexts, file_contexts.homedirs and file_contexts.local in this
/// order, those with patterns first and those with exact texts last: a later specification wins, so
/// an exact text beats a pattern.
#[tactic(auto, using(crate::proofs::OrderLemmas::length_in_order))]
pub fn ordered(
    alloc: Global,
    base: Row<Spec>,
    home: Row<Spec>,
    local: Row<Spec>,
) -> Result<Row<Spec>, OutOfMemory>
    ensures list { IfOk result (λ specs. specs ≡ in_order (base ++ home ++ local)) }
    ensures length { IfOk result (λ specs. length specs ≡ length (base ++ home ++ local)) }
{
    joined_halves(alloc, base, home, local)
}

fn joined_halves(
    alloc: Global,
    base: Row<Spec>,
    home: Row<Spec>,
    local: Row<Spec>,
) -> Result<Row<Spec>, OutOfMemory>
    ensures { IfOk result (λ specs. specs ≡ in_order (base ++ home ++ local)) }
{
    let (mut patterns, mut exact) = halves(alloc, base)?;
    divide(home, &mut patterns, &mut exact)?;
    divide(local, &mut patterns, &mut exact)?;
    joined(patterns, exact)
}

// Whether each is an exact text.
fn are_exact(specs: &[Spec]) -> bool
    ensures { result ≡ list_all is_exact_spec specs.now }
{
    specs.iter().all(|spec| is_exact(spec.text()))
}

// The patterns and the exact texts of the first file. Exact texts alone stay where they are: a
// second row of as many would take as much memory again.
#[tactic(auto, using(crate::proofs::OrderLemmas::all_exact, crate::proofs::OrderLemmas::no_pattern))]
fn halves(alloc: Global, specs: Row<Spec>) -> Result<(Row<Spec>, Row<Spec>), OutOfMemory>
    ensures patterns { IfOk result (λ halves. halves.0 ≡ filter is_pattern_spec specs) }
    ensures exact { IfOk result (λ halves. halves.1 ≡ filter is_exact_spec specs) }
{
    if are_exact(specs.as_slice()) {
        return Ok((Row::new(alloc), specs));
    }
    let mut exact = Row::new(alloc);
    let patterns = parted(alloc, specs, &mut exact)?;
    Ok((patterns, exact))
}

// How many stand in front of the first exact text.
fn count_before_exact(specs: &[Spec]) -> usize
    ensures within { result ≤ length specs.now }
    ensures none_exact { filter is_exact_spec (take result specs.now) ≡ [] }
    ensures all_patterns { filter is_pattern_spec (take result specs.now)
        ≡ take result specs.now }
{
    let mut count = 0;
    'specs: for spec in specs {
        if is_exact(spec.text()) {
            return count;
        }
        count += 1;
    }
    count
}

// The patterns of the first file, while its exact texts are moved away. The patterns that stand in
// front of the first exact text stay where they are, unless they are few: a policy mostly has its
// exact texts last.
fn parted(alloc: Global, specs: Row<Spec>, exact: &mut Row<Spec>) -> Result<Row<Spec>, OutOfMemory>
    ensures patterns { IfOk result (λ patterns. patterns ≡ filter is_pattern_spec specs) }
    ensures exact { OnOk result (exact.new ≡ exact.old ++ filter is_exact_spec specs) }
{
    let count = count_before_exact(specs.as_slice());
    if count < specs.len() / 2 {
        let mut patterns = Row::with_capacity(alloc, specs.len())?;
        divide(specs, &mut patterns, exact)?;
        return Ok(patterns);
    }
    parted_at(specs, count, exact)
}

fn parted_at(
    specs: Row<Spec>,
    count: usize,
    exact: &mut Row<Spec>,
) -> Result<Row<Spec>, OutOfMemory>
    requires within { count ≤ length specs }
    requires none_exact { filter is_exact_spec (take count specs) ≡ [] }
    requires all_patterns { filter is_pattern_spec (take count specs) ≡ take count specs }
    ensures patterns { IfOk result (λ patterns. patterns ≡ filter is_pattern_spec specs) }
    ensures exact { OnOk result (exact.new ≡ exact.old ++ filter is_exact_spec specs) }
{
    let mut front = specs.into_vec();
    let rest = front.split_off(count)?;
    let mut patterns = Row::from(front);
    divide(Row::from(rest), &mut patterns, exact)?;
    Ok(patterns)
}

// Moves each specification to its half.
fn divide(
    specs: Row<Spec>,
    patterns: &mut Row<Spec>,
    exact: &mut Row<Spec>,
) -> Result<(), OutOfMemory>
    ensures patterns { OnOk result (patterns.new ≡ patterns.old ++ filter is_pattern_spec specs) }
    ensures exact { OnOk result (exact.new ≡ exact.old ++ filter is_exact_spec specs) }
{
    'specs: for spec in specs.into_vec() {
        add(spec, patterns, exact)?;
    }
    Ok(())
}

fn add(spec: Spec, patterns: &mut Row<Spec>, exact: &mut Row<Spec>) -> Result<(), OutOfMemory>
    ensures patterns { OnOk result
        (patterns.new ≡ patterns.old ++ filter is_pattern_spec (spec ∷ [])) }
    ensures exact { OnOk result (exact.new ≡ exact.old ++ filter is_exact_spec (spec ∷ [])) }
{
    if is_exact(spec.text()) {
        exact.push(spec)
    } else {
        patterns.push(spec)
    }
}

// The one list with the other behind it.
fn joined(patterns: Row<Spec>, exact: Row<Spec>) -> Result<Row<Spec>, OutOfMemory>
    ensures { IfOk result (λ specs. specs ≡ patterns ++ exact) }
{
    if patterns.len() == 0 {
        return Ok(exact);
    }
    let mut specs = patterns.into_vec();
    specs.append(&mut exact.into_vec())?;
    Ok(Row::from(specs))
}
