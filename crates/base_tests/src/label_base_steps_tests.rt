ghost use Rattle.std.specs.Prelude.{◌≡◌, ◌+◌, ◌<◌};

use label_base::Steps;
use std::marker::Brand;
use std::sync::ledger::{Blank, Ledger};

fn two_more<L: Ledger>(steps: &mut Steps<L>)
    ensures { steps.new ≡ steps.old + 2 }
{
    steps.tick();
    steps.tick();
}

fn size_of_a_count<L: Ledger>(blank: Blank) -> usize
    requires name { blank.name ≡ L.name }
    requires parts { blank.parts ≡ L.parts }
    requires some { 0 < blank.parts }
{
    let mut steps = Steps::<L>::open(blank);
    two_more(&mut steps);
    std::mem::size_of_val(&steps)
}

#[test]
fn counts_without_bytes(rt: HostRuntime) {
    assert_eq!(rt; size_of_a_count::<Brand>(Blank::new(1)), 0);
}
