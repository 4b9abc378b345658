ghost use Rattle.std.specs.Prelude.{◌≡◌, ◌<◌, ◌≤◌};
ghost use Rattle.tree_relabelling.specs.declared.letters.TheConstants.{MOST_WORKERS};
ghost use Rattle.threaded_relabelling.specs.Counts.{workers_for, within};

use tree_relabelling::MOST_WORKERS;

// The number, brought into what may be asked for.
fn within(count: u32) -> u32
    ensures value { result ≡ within count }
    ensures some { 0 < result }
    ensures few { result ≤ MOST_WORKERS }
{
    if count == 0 {
        return 1;
    }
    if count < MOST_WORKERS {
        return count;
    }
    MOST_WORKERS
}

/// How many workers there are where so many are asked for: as many as there are cores where that is
/// none, from 1 to [`MOST_WORKERS`].
pub fn workers_for(asked: u32, cores: u32) -> u32
    ensures value { result ≡ workers_for asked cores }
    ensures some { 0 < result }
    ensures few { result ≤ MOST_WORKERS }
{
    if asked == 0 {
        return within(cores);
    }
    within(asked)
}
