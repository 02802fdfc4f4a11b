//! The paths under which tiles and entry bundles are served.

ghost use Rattle.std.specs.Prelude.{◌≡◌, ◌≢◌, ℕ, ◌/◌, ◌^◌, ◌<◌, ◌≤◌, List, ◌∷◌, ◌++◌, MatchOption, IfOk, OnOk, OnErr, string_bytes};
ghost use Rattle.std.specs.Fmt.{decimal};
ghost use Rattle.warg_tiles.specs.Tiles.{TileAt, IsTile};
ghost use Rattle.warg_tiles.specs.TilePaths.{group_of, groups_of, number_path, place_path, tile_path, entries_path, three_digits};
ghost use Rattle.warg_tiles.specs.Private.PathDigits.{number_on};

use crate::tile::Tile;
use std::alloc::{AllocError, Allocator};
use thiserror::Error;
use warg_log::decimal_in;

/// That a text isn't the path of a tile, or of an entry bundle.
#[derive(Clone, Copy, Debug, PartialEq, Eq, Error)]
#[error("not a path of a tile")]
pub struct BadPath;

impl Tile {
    /// The path under which the tile is served, as `tile/0/x001/x234/067.p/8`. It fails only if allocation fails.
    pub fn path<A: Allocator>(&self, alloc: A) -> Result<String<A>, AllocError>
        ensures { IfOk result (λ text. string_bytes text ≡ tile_path self.now) }
    {
        let mut text = String::new(alloc);
        let level = self.level();
        write!(text, "tile/{level}/")?;
        push_place(&mut text, self)?;
        Ok(text)
    }

    /// The path under which the bundle of the entries below a tile of level 0 is served, as `tile/entries/067.p/8`. It
    /// fails only if allocation fails.
    pub fn entries_path<A: Allocator>(&self, alloc: A) -> Result<String<A>, AllocError>
        requires { self.now.level ≡ 0 }
        ensures { IfOk result (λ text. string_bytes text ≡ entries_path self.now) }
    {
        let mut text = String::from_str(alloc, "tile/entries/")?;
        push_place(&mut text, self)?;
        Ok(text)
    }

    /// The tile whose path a text is: `BadPath` exactly if it is no tile's. It does not allocate.
    pub fn from_path(path: &str) -> Result<Tile, BadPath>
        ensures ok { IfOk result (λ tile. IsTile tile × (path.now ≡ tile_path tile)) }
        ensures err { OnErr result ((tile : TileAt) → IsTile tile → path.now ≢ tile_path tile) }
    {
        tile_in(path).ok_or(BadPath)
    }

    /// The tile of level 0 whose entry bundle's path a text is: `BadPath` exactly if it is no bundle's. It does not
    /// allocate.
    pub fn from_entries_path(path: &str) -> Result<Tile, BadPath>
        ensures ok { IfOk result (λ tile. IsTile tile × (tile.level ≡ 0)
            × (path.now ≡ entries_path tile)) }
        ensures err { OnErr result ((tile : TileAt) → IsTile tile → path.now ≢ entries_path tile) }
    {
        entries_in(path).ok_or(BadPath)
    }
}

// The tile whose path a text is.
fn tile_in(path: &str) -> Option<Tile>
    ensures { MatchOption result ((tile : TileAt) → IsTile tile → path.now ≢ tile_path tile)
        (λ tile. IsTile tile × (path.now ≡ tile_path tile)) }
{
    let (level, place) = path.strip_prefix("tile/")?.split_once('/')?;
    let level = decimal_in(level)?;
    let place = Place::read(place)?;
    if level > 63 {
        return None;
    }
    Some(Tile::new(level as u32, place.number, place.width))
}

// The tile of level 0 whose entry bundle's path a text is.
fn entries_in(path: &str) -> Option<Tile>
    ensures { MatchOption result ((tile : TileAt) → IsTile tile → path.now ≢ entries_path tile)
        (λ tile. IsTile tile × (tile.level ≡ 0) × (path.now ≡ entries_path tile)) }
{
    let place = Place::read(path.strip_prefix("tile/entries/")?)?;
    Some(Tile::new(0, place.number, place.width))
}

// Writes the tile's number and its width at the end of a path.
fn push_place<A: Allocator>(text: &mut String<A>, tile: &Tile) -> Result<(), AllocError>
    ensures { OnOk result (string_bytes text.new
        ≡ string_bytes text.old ++ place_path tile.now.number tile.now.width) }
{
    let number = tile.number();
    push_groups(text, number / 1000)?;
    let last = number % 1000;
    write!(text, "{last:03}")?;
    if !tile.is_full() {
        let width = tile.width();
        write!(text, ".p/{width}")?;
    }
    Ok(())
}

// Writes the groups of a number's digits that stand before the last one.
#[tactic(auto, unfolding(crate::specs::TilePaths::groups_within))]
fn push_groups<A: Allocator>(text: &mut String<A>, groups: usize) -> Result<(), AllocError>
    ensures { OnOk result (string_bytes text.new ≡ string_bytes text.old ++ groups_of groups) }
{
    if groups == 0 {
        return Ok(());
    }
    push_groups(text, groups / 1000)?;
    let group = groups % 1000;
    write!(text, "x{group:03}/")
}

// The number and the width at the end of a path.
#[derive(Clone, Copy)]
struct Place {
    number: usize,
    width: usize,
}

impl Place {
    // The number and the width that the end of a path says.
    fn read(place: &str) -> Option<Place>
        ensures { MatchOption result ((number width : ℕ) → number < 2 ^ 64 → 0 < width → width ≤ 256
            → place.now ≢ place_path number width)
            (λ p. (0 < p.width) × (p.width ≤ 256) × (place.now ≡ place_path p.number p.width)) }
    {
        match place.split_once('.') {
            Some((number, width)) => {
                let number = number_in(number.as_bytes())?;
                let width = width_in(width)?;
                Some(Place { number, width })
            }
            None => {
                let number = number_in(place.as_bytes())?;
                Some(Place { number, width: 256 })
            }
        }
    }
}

// The width of a partial tile that a text says behind p/.
fn width_in(text: &str) -> Option<usize>
    ensures { MatchOption result ((width : ℕ) → 0 < width → width < 256
        → text.now ≢ 112 ∷ 47 ∷ decimal width)
        (λ width. (0 < width) × (width < 256) × (text.now ≡ 112 ∷ 47 ∷ decimal width)) }
{
    let width = decimal_in(text.strip_prefix("p/")?)?;
    if 0 < width && width < 256 {
        Some(width)
    } else {
        None
    }
}

// The number that a text is in groups of three digits.
fn number_in(text: &[u8]) -> Option<usize>
    ensures { MatchOption result ((n : ℕ) → n < 2 ^ 64 → text.now ≢ number_path n)
        (λ n. text.now ≡ number_path n) }
{
    let number = number_of_digits(text)?;
    let last = strip_groups(text, number / 1000)?;
    if last == digits_of(number % 1000).as_slice() {
        Some(number)
    } else {
        None
    }
}

// The number whose decimal digits a text has, whatever else stands between them, if it is below 2^64.
#[tactic(auto, unfolding(crate::specs::Private::PathDigits::number_on))]
fn number_of_digits(text: &[u8]) -> Option<usize>
    ensures { MatchOption result (2 ^ 64 ≤ number_on 0 text.now) (λ n. n ≡ number_on 0 text.now) }
{
    let mut number = 0usize;
    'bytes: for byte in text {
        if byte.is_ascii_digit() {
            let digit = (*byte - b'0') as usize;
            number = number.checked_mul(10)?.checked_add(digit)?;
        }
    }
    Some(number)
}

// What a text has behind the groups of a number's digits that stand before the last one.
#[tactic(auto, unfolding(crate::specs::TilePaths::groups_within))]
fn strip_groups(text: &[u8], groups: usize) -> Option<&[u8]>
    ensures { MatchOption result ((rest : List ℕ) → text.now ≢ groups_of groups ++ rest)
        (λ rest. text.now ≡ groups_of groups ++ rest.now) }
{
    if groups == 0 {
        return Some(text);
    }
    let rest = strip_groups(text, groups / 1000)?;
    rest.strip_prefix(&group_of(groups % 1000))
}

// Three digits between an x and a slash.
fn group_of(number: usize) -> [u8; 5]
    requires { number < 1000 }
    ensures { result ≡ group_of number }
{
    let [hundreds, tens, ones] = digits_of(number);
    [b'x', hundreds, tens, ones, b'/']
}

// The three decimal digits of a number below 1000.
fn digits_of(number: usize) -> [u8; 3]
    requires { number < 1000 }
    ensures { result ≡ three_digits number }
{
    [
        b'0' + (number / 100) as u8,
        b'0' + (number / 10 % 10) as u8,
        b'0' + (number % 10) as u8,
    ]
}
