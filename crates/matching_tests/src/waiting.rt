// Which waits an event meets, how many conditions are evaluated for it, and how waits go.
ghost use Rattle.std.specs.Prelude.{◌≡◌, ◌<◌, IfOk};
ghost use Rattle.kinds.specs.Stores.{wait_number, wait_condition};
ghost use Rattle.matching_tests.specs.Rows.{OnOwn, AreOnOwn};

use crate::matcher::{OwnNumber, condition, digits, event};
use kinds::{Bucket, Numbers, Steps, Wait};
use lists::{Bytes, Items, Memory};
use std::alloc::Global;
use std::marker::Brand;
use std::sync::ledger::{Blank, Ledger};
use std::test::Fail;
use text_num::{put_units, read_units};
use wait_index::WaitIndex;

/// What a wait asks for.
#[derive(Clone, Copy)]
enum Form {
    /// A condition that is true of the event with the wait's number, in the bucket of this number.
    Keyed,
    /// A condition that is true of the event with this number, in no bucket.
    Unkeyed(u64),
    /// No condition, and the bucket of the wait's number, which doesn't count.
    Bare,
}

/// The wait with a number, which is its run's too.
fn wait(alloc: Global, number: u64, form: Form) -> Result<Wait, Memory>
    ensures number { IfOk result (λ w. wait_number w ≡ number) }
    ensures own { IfOk result (λ w. OnOwn (wait_condition w)) }
{
    match form {
        Form::Keyed => keyed(alloc, number),
        Form::Unkeyed(first) => unkeyed(alloc, number, first),
        Form::Bare => bare(alloc, number),
    }
}

fn keyed(alloc: Global, number: u64) -> Result<Wait, Memory>
    ensures number { IfOk result (λ w. wait_number w ≡ number) }
    ensures own { IfOk result (λ w. OnOwn (wait_condition w)) }
{
    let bucket = Bucket {
        path: Items::new(alloc),
        value: digits(alloc, number)?,
    };
    Ok(Wait {
        number,
        run: number,
        first: number,
        name: Bytes::from_slice(alloc, b"y")?,
        cond: Some(condition(alloc)?),
        due: 0,
        bucket: Some(bucket),
    })
}

fn unkeyed(alloc: Global, number: u64, first: u64) -> Result<Wait, Memory>
    ensures number { IfOk result (λ w. wait_number w ≡ number) }
    ensures own { IfOk result (λ w. OnOwn (wait_condition w)) }
{
    Ok(Wait {
        number,
        run: number,
        first,
        name: Bytes::from_slice(alloc, b"y")?,
        cond: Some(condition(alloc)?),
        due: 0,
        bucket: None,
    })
}

fn bare(alloc: Global, number: u64) -> Result<Wait, Memory>
    ensures number { IfOk result (λ w. wait_number w ≡ number) }
    ensures own { IfOk result (λ w. OnOwn (wait_condition w)) }
{
    let bucket = Bucket {
        path: Items::new(alloc),
        value: digits(alloc, number)?,
    };
    Ok(Wait {
        number,
        run: number,
        first: number,
        name: Bytes::from_slice(alloc, b"y")?,
        cond: None,
        due: 0,
        bucket: Some(bucket),
    })
}

/// Waits of these forms, each with its place as its number, and keyed ones up to a count.
fn waits(alloc: Global, forms: &[Form], count: u64) -> Result<WaitIndex, Memory>
    ensures { IfOk result (AreOnOwn wait_condition) }
{
    let mut waits = WaitIndex::empty(alloc);
    for number in 0..count {
        waits.add(wait(alloc, number, form_at(forms, number))?)?;
    }
    Ok(waits)
}

fn form_at(forms: &[Form], number: u64) -> Form {
    match forms.get(number as usize) {
        Some(form) => *form,
        None => Form::Keyed,
    }
}

/// The waits that the event with a number meets, and how many conditions were evaluated. None where its
/// value isn't this number.
fn meets<L: Ledger>(
    alloc: Global,
    blank: Blank,
    waits: &WaitIndex,
    number: u64,
    value: Bytes,
) -> Result<Option<(Numbers, u64)>, Memory>
    requires name { blank.name ≡ L.name }
    requires parts { blank.parts ≡ L.parts }
    requires some { 0 < blank.parts }
    requires own { AreOnOwn wait_condition waits.now }
{
    if value != digits(alloc, number)? {
        return Ok(None);
    }
    let event = event(alloc, number)?;
    let matcher = OwnNumber::new(value);
    let mut steps = Steps::<L>::new(blank);
    let met = waits.matches(&event, &matcher, &mut steps)?;
    Ok(Some((met, matcher.calls())))
}

/// A number of a text as JSON has it, as its shortest decimal.
fn written(alloc: Global, text: &[u8]) -> Result<Bytes, Memory> {
    let mut room = [0; 64];
    match read_units(text) {
        Ok(units) => {
            let len = put_units(units, &mut room);
            Bytes::from_slice(alloc, &room[..len.min(64)])
        }
        Err(_) => Ok(Bytes::new(alloc)),
    }
}

#[test]
fn one_of_a_thousand(rt: HostRuntime) -> Result<(), Fail> {
    let waits = waits(rt.alloc(), &[], 1_000)?;
    let value = digits(rt.alloc(), 5)?;
    let told = meets::<Brand>(rt.alloc(), Blank::new(1), &waits, 5, value)?;
    let Some((met, calls)) = told else {
        return Err(Fail::new("no value"));
    };
    assert_eq!(rt; met.as_slice(), [5].as_slice());
    assert_eq!(rt; calls, 1);
    Ok(())
}

#[test]
fn equal_numbers_share_a_bucket(rt: HostRuntime) -> Result<(), Fail> {
    let waits = waits(rt.alloc(), &[], 3)?;
    let value = written(rt.alloc(), b"1.0")?;
    let told = meets::<Brand>(rt.alloc(), Blank::new(1), &waits, 1, value)?;
    let Some((met, calls)) = told else {
        return Err(Fail::new("no value"));
    };
    assert_eq!(rt; met.as_slice(), [1].as_slice());
    assert_eq!(rt; calls, 1);
    Ok(())
}

/// A wait without a value is asked and never met; one without a condition is met in any bucket.
#[test]
fn buckets_hide_nothing_that_is_met(rt: HostRuntime) -> Result<(), Fail> {
    let forms = [
        Form::Bare,
        Form::Keyed,
        Form::Keyed,
        Form::Unkeyed(2),
        Form::Unkeyed(9),
        Form::Bare,
    ];
    let waits = waits(rt.alloc(), &forms, 6)?;
    let value = digits(rt.alloc(), 2)?;
    let told = meets::<Brand>(rt.alloc(), Blank::new(1), &waits, 2, value)?;
    let Some((met, calls)) = told else {
        return Err(Fail::new("no value"));
    };
    assert_eq!(rt; met.as_slice(), [0, 2, 3, 5].as_slice());
    assert_eq!(rt; calls, 3);
    Ok(())
}

#[test]
fn waits_go_by_number_and_run(rt: HostRuntime) -> Result<(), Fail> {
    let mut waits = waits(rt.alloc(), &[], 4)?;
    waits.remove(1);
    waits.remove_run(2);
    waits.remove_run(9);
    let mut left = [0, 3].iter();
    for wait in waits.entries() {
        assert_eq!(rt; Some(&wait.number), left.next());
    }
    assert!(rt; left.next().is_none());
    Ok(())
}
