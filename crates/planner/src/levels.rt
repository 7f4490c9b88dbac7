// The checks of a list of levels and of an answer buffer (document 01, "Reasons for turning a call down", 13 to 15).
ghost use Rattle.std.specs.Prelude.{◌≡◌, nat_lt};
ghost use Rattle.std.specs.List.{position_from};
ghost use Rattle.planner.specs.Checks.{checked_of, levels_at, room_at};

use sheet::{Reason, Refusal};

// The highest level that is offered: SSI.
const TOP: u8 = 2;

// Where the first level above the highest stands.
fn first_above(levels: &[u8]) -> Option<usize>
    ensures { result ≡ position_from (λ level. nat_lt 2 level) 0 levels.now }
{
    levels.iter().position(|level| TOP < *level)
}

// As many levels as jobs, and none above the highest.
pub fn check_levels(jobs: usize, levels: &[u8]) -> Result<(), Refusal>
    ensures { checked_of result ≡ levels_at jobs levels.now }
{
    if levels.len() != jobs {
        return Err(Refusal {
            place: 0,
            reason: Reason::LevelsLength,
        });
    }
    match first_above(levels) {
        Some(place) => Err(Refusal {
            place,
            reason: Reason::LevelsLevel,
        }),
        None => Ok(()),
    }
}

// A place for each job in an answer buffer of this length.
pub fn check_room(jobs: usize, room: usize) -> Result<(), Refusal>
    ensures { checked_of result ≡ room_at jobs room }
{
    if room < jobs {
        return Err(Refusal {
            place: 0,
            reason: Reason::Room,
        });
    }
    Ok(())
}
