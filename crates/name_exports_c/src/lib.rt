// The answers of `name_exports` under their C names: a `&[u8]` is a pointer and a length there.
#![tactic(auto)]

ghost use Rattle.std.specs.Prelude.{◌≡◌};
ghost use Rattle.naming.specs.Name.{shown_of, number_of, place_of};

// 0 where it is the panel's, 1 where it is the reference's, 18 where neither block has one.
#[unsafe(no_mangle)]
pub extern "C" fn edid_name_number(panel: &[u8], reference: &[u8]) -> u32
    ensures { result ≡ number_of (shown_of panel.now reference.now) }
{
    name_exports::edid_name_number(panel, reference)
}

// Where in its block it begins.
#[unsafe(no_mangle)]
pub extern "C" fn edid_name_start(panel: &[u8], reference: &[u8]) -> usize
    ensures { result ≡ (place_of (shown_of panel.now reference.now)).start }
{
    name_exports::edid_name_start(panel, reference)
}

// And how many bytes it has.
#[unsafe(no_mangle)]
pub extern "C" fn edid_name_length<'a>(panel: &'a [u8], reference: &'a [u8]) -> usize
    ensures { result ≡ (place_of (shown_of panel.now reference.now)).len }
{
    name_exports::edid_name_length(panel, reference)
}
