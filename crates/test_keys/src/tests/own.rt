//! Tests of a user-defined element: a number that is compared and looked up by its low byte.
ghost use Rattle.std.specs.Prelude.{◌≡◌, MatchResult};
ghost use Rattle.std.specs.Int.{w32};
ghost use Rattle.rkyv_base.specs.{AtView, IsValidView, number_at};
ghost use Rattle.rkyv_keys.specs.{after_calls, at_view, at_views};
ghost use Rattle.test_keys.specs.LowByte.{byte_call, low_calls, low_fails, low_fits};
ghost use Rattle.test_keys.specs.LowByte.{low_represents, low_same, low_spec};
ghost use Rattle.test_keys.specs.Lemmas.LowByte.{low_element, low_equivalence, low_key, low_local};
ghost use Rattle.test_keys.specs.Lemmas.LowByte.{low_query};

use rkyv_base::access::access;
use rkyv_base::{Element, HasSpec, PartRange, ReadError, Represents, VerifyError, View};
use rkyv_keys::{Deserialize, ElementEq, ElementEquiv, KeyElement, KeyHash, Query, hash_value};
use rkyv_scan::{FxHasher64, KeyHasher};
use std::alloc::Global;

struct LowByte;

impl HasSpec for LowByte {
    ghost spec = { low_spec };

    ghost laws = { low_element };
}

impl Element for LowByte {
    fn size() -> usize {
        4
    }

    fn align() -> usize {
        4
    }

    fn check(bytes: &[u8], pos: u64, range: PartRange) -> Result<PartRange, VerifyError> {
        u32::check(bytes, pos, range)
    }
}

fn number(view: View<'_, LowByte>) -> u32
    requires { IsValidView low_spec view }
    ensures { result ≡ at_view (number_at w32) view.entry }
{
    view.at::<u32>(view.pos()).to_native()
}

impl ElementEq for LowByte {
    ghost same = { low_same };

    fn same(a: View<'_, LowByte>, b: View<'_, LowByte>) -> bool
        requires a { IsValidView low_spec a }
        requires b { IsValidView low_spec b }
        ensures { result ≡ at_views low_same a.entry b.entry }
    {
        number(a) % 256 == number(b) % 256
    }
}

impl ElementEquiv for LowByte {
    ghost equivalence = { low_equivalence };
}

impl KeyElement for LowByte {
    ghost key_calls = { low_calls };

    fn hash_view<H: KeyHasher>(view: View<'_, LowByte>, state: &mut H)
        requires { IsValidView low_spec view }
        ensures { state.new ≡ after_calls H.hasher state.old (at_view low_calls view.entry) }
    {
        state.write_u8((number(view) % 256) as u8);
    }

    ghost key = { low_key };
}

struct EndsIn(u8);

impl KeyHash for EndsIn {
    ghost calls = { λ q. byte_call q.0 };

    fn hash<H: KeyHasher>(&self, state: &mut H) {
        state.write_u8(self.0);
    }
}

impl Query<LowByte> for EndsIn {
    ghost fits = { low_fits (λ q. q.0) };

    fn same(&self, key: View<'_, LowByte>) -> bool
        requires { IsValidView low_spec key }
        ensures { result ≡ at_view (low_fits (λ q. q.0) self.now) key.entry }
    {
        u32::from(self.0) == number(key) % 256
    }

    ghost query = { low_query (λ q. q.0) };
}

impl Represents<u32> for LowByte {
    ghost represents = { low_represents };

    ghost local = { low_local };
}

// Deserializing a number whose low byte is 0 fails with `Refused(7)`.
impl Deserialize<u32> for LowByte {
    ghost deserialize_fails = { low_fails };

    fn deserialize(_alloc: Global, view: View<'_, LowByte>) -> Result<u32, ReadError>
        requires { IsValidView low_spec view }
        ensures { MatchResult result
            (AtView low_represents view.entry)
            (AtView low_fails view.entry) }
    {
        let value = number(view);
        if value % 256 == 0 {
            return Err(ReadError::Refused(7));
        }
        Ok(value)
    }
}

// Returns the result of each comparison of three numbers. The first two have the same low byte.
fn compared(first: &[u8], second: &[u8], third: &[u8]) -> Result<[bool; 5], VerifyError> {
    let a = access::<LowByte>(first)?;
    let b = access::<LowByte>(second)?;
    let c = access::<LowByte>(third)?;
    Ok([
        LowByte::same(a, b),
        LowByte::same(a, c),
        EndsIn(1).same(a),
        EndsIn(1).same(b),
        EndsIn(1).same(c),
    ])
}

// Returns the hash of such a number.
fn hash_of(bytes: &[u8]) -> Result<u64, VerifyError> {
    let mut state = FxHasher64::default();
    LowByte::hash_view(access::<LowByte>(bytes)?, &mut state);
    Ok(state.finish())
}

// Returns the deserialized number, and a flag for an error `Refused(7)`.
fn read(alloc: Global, bytes: &[u8]) -> Result<(Option<u32>, bool), VerifyError> {
    match LowByte::deserialize(alloc, access::<LowByte>(bytes)?) {
        Ok(number) => Ok((Some(number), false)),
        Err(ReadError::Refused(why)) => Ok((None, why == 7)),
        Err(_) => Ok((None, false)),
    }
}

#[test]
fn a_low_byte_is_a_key(rt: HostRuntime) {
    let (first, second, third) = ([1, 1, 0, 0], [1, 2, 0, 0], [0, 1, 0, 0]);
    expect_eq!(rt; compared(&first, &second, &third).ok(), Some([true, false, true, true, false]));
    expect_eq!(rt; hash_of(&second).ok(), Some(hash_value::<EndsIn, FxHasher64>(&EndsIn(1))));
    expect_eq!(rt; read(rt.alloc(), &second).ok(), Some((Some(0x0201), false)));
    expect_eq!(rt; read(rt.alloc(), &third).ok(), Some((None, true)));
}
