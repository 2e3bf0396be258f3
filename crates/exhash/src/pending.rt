ghost use Rattle.std.specs.Prelude.{◌≡◌, ◌↔◌, [], ◌∷◌, ◌++◌, IfNone, IfSome, IsTrue, None, OnErr, OnOk, Some};
ghost use Rattle.exh_calls.specs.declared.call.Call.TheVariants as call;
ghost use Rattle.exhash.specs.Pending.{Follows, IsEmpty, NotesPut, NotesPutNew, NotesRemoved, NotesReplaced, NotesSwap, are_known};

use exh_calls::Call;
use exh_map::{Put, PutNew, Swap};
use exh_page::{Key, Value};
use std::alloc::{AllocError, Global};

/// The calls that changed a map since it was saved, in their order, up to a limit. Where they were more, or there was no
/// memory for them, they aren't known.
#[derive(Drop)]
pub struct Pending {
    // `None` where they aren't known.
    calls: Option<Vec<Call>>,
    limit: usize,
}

impl Pending {
    /// No calls, of a map of which at most so many are kept. It takes no memory.
    pub fn new(alloc: Global, limit: usize) -> Pending
        ensures empty { IsEmpty result }
        ensures limit { result.limit ≡ limit }
    {
        Pending {
            calls: Some(Vec::new(alloc)),
            limit,
        }
    }

    /// The calls, `None` where they aren't known. It takes no memory.
    pub fn calls(&self) -> Option<&[Call]>
        ensures known { IfSome result (λ calls. are_known self.now ≡ Some calls.now) }
        ensures unknown { IfNone result (are_known self.now ≡ None) }
    {
        match &self.calls {
            Some(calls) => Some(calls.as_slice()),
            None => None,
        }
    }

    /// Whether no call changed the map. It takes no memory.
    pub fn is_empty(&self) -> bool
        ensures { IsTrue result ↔ IsEmpty self.now }
    {
        match &self.calls {
            Some(calls) => calls.is_empty(),
            None => false,
        }
    }

    /// Notes a put that was answered so.
    pub fn note_put(&mut self, key: &Key, value: &Value, answer: &Put)
        ensures { NotesPut answer.now key.now value.now self.old self.new }
    {
        match answer {
            Put::New | Put::Was(_) => self.note_given(key, value),
            Put::Full => {}
        }
    }

    /// Notes a put of a key that has no value.
    pub fn note_put_new(&mut self, key: &Key, value: &Value, answer: &PutNew)
        ensures { NotesPutNew answer.now key.now value.now self.old self.new }
    {
        match answer {
            PutNew::New => self.note_given(key, value),
            PutNew::Is(_) | PutNew::Full => {}
        }
    }

    /// Notes a put of a key that has a value.
    pub fn note_replaced(&mut self, key: &Key, value: &Value, answer: &Option<Value>)
        ensures { NotesReplaced answer.now key.now value.now self.old self.new }
    {
        match answer {
            Some(_) => self.note_given(key, value),
            None => {}
        }
    }

    /// Notes that a key was taken out.
    pub fn note_removed(&mut self, key: &Key, answer: &Option<Value>)
        ensures { NotesRemoved answer.now key.now self.old self.new }
    {
        match answer {
            Some(_) => self.note(Call::Del { key: *key }),
            None => {}
        }
    }

    /// Notes a swap that was answered so.
    pub fn note_swap(&mut self, key: &Key, old: &Value, new: &Value, answer: &Swap)
        ensures { NotesSwap answer.now key.now old.now new.now self.old self.new }
    {
        match answer {
            Swap::Swapped => self.note(Call::Swap {
                key: *key,
                old: *old,
                new: *new,
            }),
            Swap::Differs(_) | Swap::None => {}
        }
    }

    // Notes that a key got a value.
    fn note_given(&mut self, key: &Key, value: &Value)
        ensures { Follows (call.Put key.now value.now) self.old self.new }
    {
        self.note(Call::Put {
            key: *key,
            value: *value,
        });
    }

    // Notes a call behind the others.
    fn note(&mut self, call: Call)
        ensures { Follows call self.old self.new }
    {
        if let Some(calls) = &mut self.calls {
            if calls.len() < self.limit && push_call(calls, call).is_ok() {
                return;
            }
        }
        self.calls = None;
    }
}

// Puts a call behind others.
fn push_call(calls: &mut Vec<Call>, call: Call) -> Result<(), AllocError>
    ensures ok { OnOk result (calls.new.items ≡ calls.old.items ++ call ∷ []) }
    ensures err { OnErr result (calls.new.items ≡ calls.old.items) }
{
    calls.push(call)?;
    Ok(())
}
