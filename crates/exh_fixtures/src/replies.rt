//! Wrong replies.

use crate::Lie;
use exh_calls::Reply;

/// The reply, or another where a wrong answer is due.
pub fn told_reply(lie: &mut Lie, reply: Reply) -> Reply {
    match (lie.is_due(), reply) {
        (false, reply) => reply,
        (true, Reply::Full) => Reply::New,
        (true, _) => Reply::Full,
    }
}
