//! A place under the headings of labels.
ghost use Rattle.std.specs.Prelude.{◌≡◌, ◌+◌, ◌^◌, ◌<◌, ◌||◌, ◌&&◌, ◌++◌, ℕ, not, IfOk, OnOk, All, map};
ghost use Rattle.pol_headings.specs.declared.heading.Heading.{Heading as OneHeading};
ghost use Rattle.pol_headings.specs.Filed.{is_filed};
ghost use Rattle.pol_label_sets.specs.Filed.{IsFiledApart, is_of};

use pol_data::Memory;
use pol_headings::{Filing, HeadingRef};
use pol_labels::Label;

/// Files the place under the heading of each label. After an error some of them may be filed.
pub(crate) fn file_each(filing: &mut Filing, labels: &[Label], place: u32) -> Result<(), Memory>
    ensures filed { OnOk result ((heading : OneHeading) (other : ℕ) → is_filed filing.new heading other
        ≡ (is_filed filing.old heading other || is_of labels.now place heading other)) }
    ensures apart { IsFiledApart labels.now place filing.old filing.new }
{
    for label in labels {
        filing.file(&HeadingRef::of_label(label), u64::from(place))?;
    }
    Ok(())
}

/// Takes the place from under the heading of each label. It takes no memory.
pub(crate) fn unfile_each(filing: &mut Filing, labels: &[Label], place: u32)
    ensures { (heading : OneHeading) (other : ℕ) → is_filed filing.new heading other
        ≡ (is_filed filing.old heading other && not (is_of labels.now place heading other)) }
{
    for label in labels {
        filing.unfile(&HeadingRef::of_label(label), u64::from(place));
    }
}

/// Puts the numbers of these places, from `first` on, behind these.
pub(crate) fn push_each(places: &[u64], first: u32, numbers: &mut Vec<u32>) -> Result<(), Memory>
    requires fits { All (λ place. first + place < 2 ^ 32) places.now }
    ensures { OnOk result (numbers.new.items ≡ numbers.old.items ++ map (λ place. first + place) places.now) }
{
    for place in places {
        numbers.push(first + *place as u32)?;
    }
    Ok(())
}
