// The board's event call as C sees it, for speed/: from power-up of part 1 chips with kept bits 0, over the lent slice and with
// no serials.
#![tactic(auto)]

use board::event::event;
use board::power::{Asked, Plan, power_up};

// The codes one after the other, own lines of chip 0: the first refusal, or 0.
#[unsafe(no_mangle)]
pub extern "C" fn by_board(count: usize, codes: &[u64], array: &mut [u8]) -> u64 {
    let plan = Plan {
        count,
        chips: [Asked { part: 1, kept: 0 }; 8],
    };
    let mut board = power_up(plan, array).board;
    for code in codes {
        let answer = event(board, array, &[], 0, *code);
        if let Some(refusal) = answer.refusal {
            return u64::from(u8::from(refusal));
        }
        board = answer.board;
    }
    0
}
