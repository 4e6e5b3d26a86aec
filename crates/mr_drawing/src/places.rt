//! Where things stand in a picture, in pixels: each sum and each product that is too great is the greatest number.
ghost use Rattle.std.specs.Prelude.{◌≡◌};
ghost use Rattle.mr_drawing.specs.Places.{plus, times, across, middle, cells, down, center, node_height, legs_height, backs_height, foot, whole_width, room_of};

/// The least width of a picture: the lines above it are no wider.
const LEAST_WIDTH: usize = 960;
/// Where the lanes begin, right of their names.
pub(crate) const LEFT: usize = 176;
/// Where the first level begins, below the lines above the lanes.
const TOP: usize = 176;
/// The width of a column.
pub(crate) const CELL: usize = 56;
/// The height of a level.
const LEVEL: usize = 24;

/// How much a picture has of everything.
#[derive(Clone, Copy, Debug, PartialEq, Eq)]
pub(crate) struct Frame {
    /// Its columns, one for each event.
    pub(crate) columns: usize,
    /// The levels of the proxies' lanes.
    pub(crate) levels: usize,
    /// The nodes' lanes.
    pub(crate) nodes: usize,
}

/// A sum.
pub(crate) fn plus(one: usize, other: usize) -> usize
    ensures { result ≡ plus one other }
{
    one.saturating_add(other)
}

/// A product.
pub(crate) fn times(one: usize, other: usize) -> usize
    ensures { result ≡ times one other }
{
    one.saturating_mul(other)
}

/// The left edge of a column. The lanes begin one cell before the first.
pub(crate) fn across(column: usize) -> usize
    ensures { result ≡ across column }
{
    plus(LEFT, times(CELL, plus(column, 1)))
}

/// The middle of a column.
pub(crate) fn middle(column: usize) -> usize
    ensures { result ≡ middle column }
{
    plus(across(column), CELL / 2)
}

/// The width of so many columns.
pub(crate) fn cells(count: usize) -> usize
    ensures { result ≡ cells count }
{
    times(CELL, count)
}

/// The top of a level.
pub(crate) fn down(level: usize) -> usize
    ensures { result ≡ down level }
{
    plus(TOP, times(LEVEL, level))
}

/// The middle of a level.
pub(crate) fn center(level: usize) -> usize
    ensures { result ≡ center level }
{
    plus(down(level), LEVEL / 2)
}

/// The height of a node's lane. Above the first are three levels for what is said of the legs.
pub(crate) fn node_height(frame: Frame, node: usize) -> usize
    ensures { result ≡ node_height frame node }
{
    center(plus(plus(frame.levels, 3), times(2, node)))
}

/// The height of what is said of legs to nodes.
pub(crate) fn legs_height(frame: Frame) -> usize
    ensures { result ≡ legs_height frame }
{
    center(frame.levels)
}

/// The height of what is said of replies.
pub(crate) fn backs_height(frame: Frame) -> usize
    ensures { result ≡ backs_height frame }
{
    center(plus(frame.levels, 1))
}

/// The foot of the picture.
pub(crate) fn foot(frame: Frame) -> usize
    ensures { result ≡ foot frame }
{
    down(plus(plus(frame.levels, 3), times(2, frame.nodes)))
}

/// The width of the picture.
pub(crate) fn whole_width(frame: Frame) -> usize
    ensures { result ≡ whole_width frame }
{
    plus(across(frame.columns), CELL).max(LEAST_WIDTH)
}

/// How many characters fit into a bar over so many columns.
pub(crate) fn room_of(columns: usize) -> usize
    ensures { result ≡ room_of columns }
{
    times(8, columns).saturating_sub(2)
}
