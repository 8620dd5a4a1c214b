// Numbers of items: no two have one, and the item of a call that ends is in no queue.
ghost use Rattle.kinds.specs.declared.input.Input.{Input};
ghost use Rattle.kinds.specs.declared.limits.Limits.{Limits};
ghost use Rattle.kinds.specs.declared.reply.Op.{Op};
ghost use Rattle.kinds.specs.declared.store.Item.{Item};
ghost use Rattle.run_model.specs.Fit.{HasOwnNumbers, IsAside};
ghost use Rattle.run_model.specs.Machine.{fold, step};
ghost use Rattle.run_model.specs.Replies.{Taking, close, take_operations};
ghost use Rattle.run_model.specs.Sound.{ArePairwise, entry_numbers};
ghost use Rattle.run_model.specs.State.{State, Issue, open_issue};
ghost use Rattle.std.specs.Prelude.{ℕ, Bool, List, ◌≡◌, ◌≢◌, Some};

/// Each item, queued or of an open call, has a number of its own that was given: so it is after each input.
pub fn items_keep_own_numbers()
    ensures { (s : State) (input : Input) → HasOwnNumbers s → HasOwnNumbers (step s input).state }
{}

/// So it is in each state that is reached.
pub fn items_have_own_numbers()
    ensures { (limits : Limits) (inputs : List Input) → HasOwnNumbers (fold limits inputs) }
{}

/// The item of a call that ends is in no queue, and no queued item has its number.
pub fn ended_calls_leave_items_aside()
    ensures { (call : ℕ) (s : State) (i : Issue) → HasOwnNumbers s → open_issue call s ≡ Some i →
        IsAside i.item (close i.call s) }
{}

/// The operations of a reply leave it so.
pub fn operations_leave_items_aside()
    ensures { (i : Item) (no_retry : Bool) (os : List Op) (t : Taking) → IsAside i t.state →
        IsAside i (take_operations i no_retry os t).state }
{}

/// Of the numbers of items, sleeps, waits, invocations, rules, windows and limits of calls no two are equal, in each
/// state that is reached.
pub fn entries_have_own_numbers()
    ensures { (limits : Limits) (inputs : List Input) →
        ArePairwise (λ n later. n ≢ later) (entry_numbers (fold limits inputs)) }
{}
