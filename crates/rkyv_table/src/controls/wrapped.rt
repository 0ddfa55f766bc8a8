//! Validating the control bytes after the buckets' own.
ghost use Rattle.std.specs.Prelude.{IfErr, IfOk, IsTrue, length, ◌<◌, ◌≡◌, ◌≤◌, ◌↔◌};
ghost use Rattle.rkyv_table.specs.{FirstUnwrapped, IsWrapped, IsWrappedAt, control_count};

#[inline]
fn is_wrapped_at(controls: &[u8], cap: usize, index: usize) -> bool
    requires from { cap ≤ index }
    requires inside { index < length controls.now }
    ensures { IsTrue result ↔ IsWrappedAt cap controls.now index }
{
    if index - cap < cap {
        controls[index] == controls[index - cap]
    } else {
        controls[index] >= 0x80
    }
}

/// Validates the control bytes from index `cap` on. rkyv compares only some of them.
///
/// Below `2 * cap` each is the control byte `cap` lower, and the others are empty. The error is
/// the lowest index whose control byte isn't so.
pub fn check_wrapped(controls: &[u8], cap: usize) -> Result<(), usize>
    requires count { length controls.now ≡ control_count cap }
    ensures wrapped { IfOk result (λ _. IsWrapped cap controls.now) }
    ensures fails { IfErr result (FirstUnwrapped cap controls.now) }
{
    for index in cap..controls.len() {
        if !is_wrapped_at(controls, cap, index) {
            return Err(index);
        }
    }
    Ok(())
}
