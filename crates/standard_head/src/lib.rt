// The head of a block, by fixed offsets: product, display and colours. Past the end of s every byte is 0.
#![tactic(auto)]

ghost use Rattle.std.specs.Prelude.{◌≡◌};
ghost use Rattle.standard_head.specs.Head.{product_in, display_in, chromaticity_at, colors_in};

use standard_record::{Chromaticities, Chromaticity, Display, Product};

#[tactic(auto, unfolding(crate::specs::Head::product_in))]
pub fn product_in(s: &[u8]) -> Product
    ensures { result ≡ product_in s.now }
{
    let structure = standard_parts::structure_of(bits::byte_at(s, 19));
    Product {
        maker: standard_parts::maker_of(bits::byte_at(s, 8), bits::byte_at(s, 9)),
        code: bits::word(bits::byte_at(s, 10), bits::byte_at(s, 11)),
        serial: bits::long(
            bits::word(bits::byte_at(s, 12), bits::byte_at(s, 13)),
            bits::word(bits::byte_at(s, 14), bits::byte_at(s, 15)),
        ),
        week: standard_parts::week_of(structure, bits::byte_at(s, 16)),
        year: bits::byte_at(s, 17) as u16 + 1990,
    }
}

#[tactic(auto, unfolding(crate::specs::Head::display_in))]
pub fn display_in(s: &[u8]) -> Display
    ensures { result ≡ display_in s.now }
{
    let structure = standard_parts::structure_of(bits::byte_at(s, 19));
    let input = standard_parts::input_of(structure, bits::byte_at(s, 20));
    Display {
        input,
        size: standard_parts::image_of(structure, bits::byte_at(s, 21), bits::byte_at(s, 22)),
        gamma: standard_parts::gamma_of(bits::byte_at(s, 23)),
        features: standard_parts::features_of(input, bits::byte_at(s, 24)),
    }
}

// x at k, y behind it.
fn chromaticity_at(low: u8, s: &[u8], k: u8) -> Chromaticity
    ensures { result ≡ chromaticity_at low s.now k }
{
    let k = k as usize;
    standard_parts::chromaticity_of(low, bits::byte_at(s, k), bits::byte_at(s, k + 1))
}

#[tactic(auto, unfolding(crate::specs::Head::colors_in))]
pub fn colors_in(s: &[u8]) -> Chromaticities
    ensures { result ≡ colors_in s.now }
{
    let low = bits::byte_at(s, 25);
    let last = bits::byte_at(s, 26);
    Chromaticities {
        red: chromaticity_at(bits::digits(low, 4, 4), s, 27),
        green: chromaticity_at(low, s, 29),
        blue: chromaticity_at(bits::digits(last, 4, 4), s, 31),
        white: chromaticity_at(last, s, 33),
    }
}
