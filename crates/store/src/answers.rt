// How a call answers: from what is left of its budget, or by its refusal.
ghost use Rattle.std.specs.Prelude.{◌≡◌, ◌≤◌};
ghost use Rattle.store.specs.Promise.{reply_of};
ghost use Rattle.protocol.specs.Replies.{reply_says};
ghost use Rattle.protocol.specs.Calls.{refusal_of};
ghost use Rattle.protocol.specs.Replies.{refusal_number};

use crate::Budget;
use protocol::{Answer, Refusal, Reply};
use volatile::Record;

// Done, or cut if the budget refused a store: then the record is off and no group is answered.
pub fn finish(k: usize, left: Budget, decided: bool, group: u16, next: Record) -> Reply
    requires { left.left ≤ k }
    ensures { reply_says result ≡ reply_of k left decided group next }
{
    let stores = k - left.left;
    if left.cut {
        let answer = Answer {
            cut: true,
            decided,
            group: 0,
            stores,
        };
        let none = Record::off();
        return Reply {
            answer: Ok(answer),
            next: none,
        };
    }
    let answer = Answer {
        cut: false,
        decided,
        group,
        stores,
    };
    Reply {
        answer: Ok(answer),
        next,
    }
}

// Refused, with the record that the call leaves.
pub fn refusal(why: Refusal, next: Record) -> Reply
    ensures { reply_says result ≡ refusal_of (refusal_number why) next }
{
    Reply {
        answer: Err(why),
        next,
    }
}
