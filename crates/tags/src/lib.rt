// What the tag of a slot that is no timing names, for both readings.
#![tactic(auto)]

ghost use Rattle.std.specs.Prelude.{◌≡◌};
ghost use Rattle.tags.specs.Tags.{tag_of};

// `Raw`: bytes without a form of their own, the maker's or undefined ones.
#[derive(Clone, Copy)]
pub enum Tag {
    Dummy,
    Pairs,
    Points,
    Name,
    Range,
    Text,
    Serial,
    Raw,
}

#[tactic(auto, unfolding(crate::specs::Tags::tag_of))]
pub fn tag_of(n: u8) -> Tag
    ensures { result ≡ tag_of n }
{
    match n {
        0x10 => Tag::Dummy,
        0xfa => Tag::Pairs,
        0xfb => Tag::Points,
        0xfc => Tag::Name,
        0xfd => Tag::Range,
        0xfe => Tag::Text,
        0xff => Tag::Serial,
        _ => Tag::Raw,
    }
}
