//! A put with a condition as an operation.
ghost use Rattle.std.specs.Prelude.{◌≡◌};
ghost use Rattle.exh_paged.specs.PutIf.{edits_kept, reply_kept};

use crate::{KeyIs, Operation, PutIf};
use exh_calls::{Call, Reply};
use exh_change::{Blocks, Changed, DirectFault, change};
use exh_commit::BlockEdit;
use std::alloc::Global;

// One commit is both: that the key is looked at, and the put. Where the key isn't as it should be, it is a get of it.
impl Operation for PutIf {
    ghost use Rattle.std.specs.Prelude.{◌≡◌};
    ghost use Rattle.exh_change.specs.ChangeLaws.{map_then, reply_in};
    ghost use Rattle.exh_paged.specs.PutIf.{call_in};

    type Answer = Reply;

    ghost leaves = { λ put file. map_then file (call_in file put) };

    ghost answers = { λ put file stamp reply. reply ≡ reply_in file (call_in file put) };

    ghost is_idle = { λ put. ⊥ };

    fn change<B: Blocks>(
        &self,
        alloc: Global,
        blocks: &mut B,
        stamp: u64,
    ) -> Result<(Reply, Vec<BlockEdit>), DirectFault> {
        let call = Call::Put {
            key: self.key,
            value: self.value,
        };
        let changed = change(alloc, blocks, &call, stamp)?;
        Ok(kept(alloc, self.key_is, changed))
    }
}

// What is made of a put: the same where its key was as it should be, else the reply of a get, and no edits. The reply to a
// put tells what the key was.
fn kept(alloc: Global, key_is: KeyIs, put: Changed) -> (Reply, Vec<BlockEdit>)
    ensures reply { result.0 ≡ reply_kept key_is put.reply }
    ensures edits { result.1.items ≡ edits_kept key_is put.reply put.edits.items }
{
    match (key_is, put.reply) {
        (KeyIs::New, Reply::Was(stood)) => (Reply::Is(stood), Vec::new(alloc)),
        (KeyIs::There, Reply::New | Reply::Full) => (Reply::None, Vec::new(alloc)),
        (_, reply) => (reply, put.edits),
    }
}
