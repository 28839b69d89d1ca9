// How a board stands: whether it is finished, by any plan or by its links.
ghost use Rattle.std.specs.Prelude.{◌≡◌, eqb};
ghost use Rattle.points.specs.Sets.{below_of};
ghost use Rattle.plan.specs.APlan.{records_of};
ghost use Rattle.board.specs.Stuck.{finished};

use crate::Board;
use history::{all_points, first_points};
use links::Links;
use plan::Plan;

// All points are done.
pub fn is_finished(plan: Plan, board: Board) -> bool
    ensures { result ≡ finished (records_of plan) board }
{
    board.done == all_points(plan)
}

// The same, where the plan's links are known.
pub fn is_finished_by(board: Board, links: Links) -> bool
    ensures { result ≡ eqb board.done (below_of links.points) }
{
    board.done == first_points(links.points)
}
