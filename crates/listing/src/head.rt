// The head of the listing's file: the mark, the version and V in seven bytes, all low byte first.
ghost use Rattle.std.specs.Prelude.{◌≡◌, ◌+◌, ◌≤◌, ◌<◌, length};
ghost use Rattle.meaning.specs.Listing.{head_bytes};
ghost use Rattle.listing.specs.Bounds.{good_head_of, WordRead, VolumeRead};

// The word at byte k, low byte first.
pub(crate) fn word_at(file: &[u8], k: usize) -> u16
    requires { k + 1 < length file.now }
    ensures { WordRead file.now k result }
{
    u16::from_le_bytes([file[k], file[k + 1]])
}

// Whether a file is a good head file of a version, whose directory begins at the byte `first`: its length, its mark, its version, and whole
// words for the directory.
#[tactic(auto, unfolding(crate::specs::Bounds::good_head_of, meaning::specs::Listing::mark, names::specs::Text::bytes))]
pub(crate) fn good_head(file: &[u8], version: u16, first: usize) -> bool
    requires { (head_bytes ≤ first) × (first ≤ 519) }
    ensures { result ≡ good_head_of version first file.now }
{
    first <= file.len()
        && file.len() <= first + 31744
        && names::same_bytes(&file[..3], b"RVH")
        && word_at(file, 3) == version
        && (file.len() - first) % 2 == 0
}

// V, which stands after the version.
pub(crate) fn volume_in(file: &[u8]) -> usize
    requires { head_bytes ≤ length file.now }
    ensures { VolumeRead file.now result }
{
    word_at(file, 5) as usize
}
