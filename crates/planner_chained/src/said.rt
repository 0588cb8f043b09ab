// How a class is returned.
ghost use Rattle.std.specs.Prelude.{◌≡◌};
ghost use Rattle.planner_chained.specs.Said.{classed_code};

use grid_chained::ClassVertex;
use planner_passing::said;
use refusal::Refusal;

// A point's class.
pub fn classed(said: Result<ClassVertex, Refusal>) -> u64
    ensures { result ≡ classed_code said }
{
    match said {
        Ok(v) => v.0 as u64,
        Err(why) => said::refused(why),
    }
}
