// Laws: a bucket hides no event for which its condition is true.
ghost use Rattle.std.specs.Prelude.{◌≡◌, List, ℕ, Option, Some, true, false};
ghost use Rattle.kinds.specs.Stores.{Condition, cancelled, is_hidden, woken};
ghost use Rattle.kinds.specs.declared.event.Event.{Event};
ghost use Rattle.kinds.specs.declared.store.Bucket.{Bucket};
ghost use Rattle.kinds.specs.declared.store.Rule.{Rule};
ghost use Rattle.kinds.specs.declared.store.Wait.{Wait};
ghost use Rattle.event_keys.specs.Buckets.{bucket_of, value_in};
ghost use Rattle.event_keys.specs.Expressions.{holds_over_both};
ghost use Rattle.event_keys.specs.Matching.{Texts, truth_by, truth_with, values_with};

/// Where a condition is true of a first and a fresh event, the fresh one has the value of its bucket.
pub fn buckets_are_right()
    ensures { (cond first fresh : List ℕ) (b : Bucket) → bucket_of (Some cond) first ≡ Some b
        → holds_over_both cond first fresh ≡ true → value_in b.path fresh ≡ Some b.value }
{}

/// A condition that has the bucket of its first event is hidden by it from no event.
pub fn no_bucket_hides()
    ensures { (texts : Texts) (fresh first : List ℕ) (event : Event) (c : Condition)
        → texts c.first ≡ Some first → c.bucket ≡ bucket_of c.cond first
        → is_hidden (truth_with texts fresh) (values_with fresh) event c ≡ false }
{}

/// What is matched with one fresh event is what that event meets.
pub fn one_event_is_matched()
    ensures waits { (texts : Texts) (event : Event) (ws : List Wait)
        → woken (truth_with texts event.text) event ws ≡ woken (truth_by texts) event ws }
    ensures rules { (texts : Texts) (event : Event) (rs : List Rule)
        → cancelled (truth_with texts event.text) event rs ≡ cancelled (truth_by texts) event rs }
{}
