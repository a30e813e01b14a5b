// The answers for the controller's C code on the name to show, which `name_exports_c` hands over under their names, in an archive of their own.
#![tactic(auto)]

ghost use Rattle.std.specs.Prelude.{◌≡◌};
ghost use Rattle.naming.specs.Name.{shown_of, number_of, place_of};

// 0 where it is the panel's, 1 where it is the reference's, 18 where neither block has one.
pub fn edid_name_number(panel: &[u8], reference: &[u8]) -> u32
    ensures { result ≡ number_of (shown_of panel.now reference.now) }
{
    naming::number(panel, reference) as u32
}

// Where in its block it begins.
pub fn edid_name_start(panel: &[u8], reference: &[u8]) -> usize
    ensures { result ≡ (place_of (shown_of panel.now reference.now)).start }
{
    naming::start(panel, reference)
}

// And how many bytes it has.
pub fn edid_name_length<'a>(panel: &'a [u8], reference: &'a [u8]) -> usize
    ensures { result ≡ (place_of (shown_of panel.now reference.now)).len }
{
    let name = naming::name(panel, reference);
    name.len()
}
