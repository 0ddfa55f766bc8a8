//! Colors as scalars, and as keys.

ghost use Rattle.std.specs.Prelude.{◌≡◌};
ghost use Rattle.std.proofs.Common.{inl, refl};
ghost use Rattle.rkyv_scan.specs.{U8};
ghost use Rattle.rkyv_base.specs.{scalar_spec};
ghost use Rattle.rkyv_base.specs.Lemmas.Scalar.{scalar_element, scalar_laws};
ghost use Rattle.rkyv_user_types.specs.Lemmas.Variants.{variants_decide_equality};
ghost use Rattle.test_user_types.specs.Color.{code, color_encoding};
ghost use Rattle.test_user_types.specs.contracts.color.Color.{the_type};
ghost use Rattle.test_user_types.specs.Lemmas.Color.{color_codes};

use crate::color::Color;
use rkyv_base::{HasSpec, Scalar};
use rkyv_keys::ScalarKey;
use rkyv_scan::KeyHasher;

/// Returns the number of a color.
fn number(color: Color) -> u8
    ensures { result ≡ code color }
{
    match color {
        Color::Red => 0,
        Color::Green => 1,
        Color::Blue => 2,
    }
}

impl HasSpec for Color {
    ghost spec = { scalar_spec color_encoding };

    ghost laws = { scalar_element color_encoding (inl refl) color_codes };
}

impl Scalar for Color {
    ghost encoding = { color_encoding };

    fn byte_count() -> usize {
        1
    }

    fn is_value(bytes: &[u8]) -> bool {
        bytes[0] < 3
    }

    fn read(bytes: &[u8]) -> Color {
        match bytes[0] {
            0 => Color::Red,
            1 => Color::Green,
            _ => Color::Blue,
        }
    }

    fn write(self, bytes: &mut [u8]) {
        bytes[0] = number(self);
    }

    ghost laws = { scalar_laws color_encoding (inl refl) };
}

impl ScalarKey for Color {
    ghost call = { λ color. U8 (code color) };

    fn feed<H: KeyHasher>(self, state: &mut H) {
        state.write_u8(number(self));
    }

    ghost decides = { variants_decide_equality the_type tt };

    ghost fixed = { λ color. tt };
}
