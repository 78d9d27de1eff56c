// The cursor: where it stands in a tree is one number, and each step goes down from the root.
ghost use Rattle.std.specs.Prelude.{◌≡◌, suc, ◌*◌, ◌<◌, ◌≤◌, None, MatchOption};
ghost use Rattle.records.specs.Records.{first_place};
ghost use Rattle.trees.specs.Cursor.{span, seek, next};
ghost use Rattle.trees.specs.Holding.{if_some, record_of};
ghost use Rattle.trees.specs.Reading.{height};
ghost use Rattle.trees.specs.Trees.{children, level_of};
ghost use Rattle.walks.specs.Descents.{strip_place, position_after, lead_of};

use crate::astray::Astray;
use crate::children::{child_at, child_count};
use devices::Device;
use records::Place;

// The level that a root is stored at, and 0 if it is not stored, as its definition has it: who goes down from it looks it up again.
pub(crate) fn height_of<D: Device>(device: &D, root: D::Kind) -> u8
    ensures { result ≡ level_of (record_of (D.contents device.now) (D.Kind.Key.bytes root)) }
{
    device
        .first_place(root)
        .map_or(0, |place| device.level(place).unwrap_or(0))
}

// The height of a tree that the cursor goes down: the level of its root.
#[derive(Clone, Copy)]
struct Height {
    level: u8,
    ghost low: { level ≤ 6 },
}

impl Height {
    // The height of the tree under a root, unless it is too high.
    fn of<D: Device>(device: &D, root: D::Kind) -> Option<Self>
        ensures { MatchOption result (6 < height D.Kind.Key.WIDE (D.contents device.now) (D.Kind.Key.bytes root)) (λ h. h.level ≡ height D.Kind.Key.WIDE (D.contents device.now) (D.Kind.Key.bytes root)) }
    {
        let level = height_of(device, root);
        if level > 6 {
            return None;
        }
        Some(Height { level })
    }

    // The height of the trees under its children; a strip has none.
    fn below(self) -> Option<Self>
        ensures { MatchOption result (self.level ≡ 0) (λ h. self.level ≡ suc h.level) }
    {
        let level = self.level.checked_sub(1)?;
        Some(Height { level })
    }

    // How many positions a tree of this height has space for.
    fn span(self) -> u64
        ensures { result ≡ span self.level }
    {
        64u64.pow(u32::from(self.level))
    }
}

// The place of the strip at a position below a node.
fn strip_below<D: Device>(device: &D, node: D::Kind, height: Height, position: u64) -> Option<Place>
    ensures { result ≡ if_some None (first_place (D.contents device.now)) (seek (children D.Kind.Key.WIDE (D.contents device.now)) height.level (D.Kind.Key.bytes node) position) }
{
    let Some(below) = height.below() else {
        // Tested first: a strip is looked for only where there is one.
        return if position == 0 {
            device.first_place(node)
        } else {
            None
        };
    };
    let place = device.first_place(node)?;
    let space = below.span();
    let child = child_at(device, place, (position / space) as usize)?;
    strip_below(device, child, below, position % space)
}

// The position after one below a node.
fn next_below<D: Device>(device: &D, node: D::Kind, height: Height, position: u64) -> u64
    ensures is { result ≡ next (children D.Kind.Key.WIDE (D.contents device.now)) height.level (D.Kind.Key.bytes node) position }
    ensures small { result ≤ 128 * span height.level }
{
    let Some(below) = height.below() else {
        return 1;
    };
    let Some(place) = device.first_place(node) else {
        return height.span();
    };
    let space = below.span();
    let Some(child) = child_at(device, place, (position / space) as usize) else {
        return height.span();
    };
    let end = child_count(device, place) as u64 * space;
    let to = position / space * space + next_below(device, child, below, position % space);
    if to == end { height.span() } else { to }
}

// The place of the strip at a position of the tree under a root, if the position is one of a strip there.
pub fn strip_at<D: Device>(device: &D, root: D::Kind, position: u64) -> Option<Place>
    ensures { result ≡ strip_place D.Kind.Key.WIDE (D.contents device.now) (D.Kind.Key.bytes root) position }
{
    strip_below(device, root, Height::of(device, root)?, position)
}

// The position after one of the tree under a root: that of the next strip, or the end.
pub fn position_after<D: Device>(device: &D, root: D::Kind, position: u64) -> u64
    ensures { result ≡ position_after D.Kind.Key.WIDE (D.contents device.now) (D.Kind.Key.bytes root) position }
{
    Height::of(device, root).map_or(0, |height| next_below(device, root, height, position))
}

// Where a position of the tree under a root leads: to the place of a strip, or to the end, which has none.
pub fn leads_to<D: Device>(
    device: &D,
    root: D::Kind,
    position: u64,
) -> Result<Option<Place>, Astray>
    ensures { result ≡ lead_of D.Kind.Key.WIDE (D.contents device.now) (D.Kind.Key.bytes root) position }
{
    let height = Height::of(device, root).ok_or(Astray)?;
    let end = height.span();
    if position == end {
        return Ok(None);
    }
    if position > end {
        return Err(Astray);
    }
    strip_below(device, root, height, position)
        .map(Some)
        .ok_or(Astray)
}
