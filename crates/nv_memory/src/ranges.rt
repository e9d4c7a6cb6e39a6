// Where a range lies, and where a region ends.
ghost use Rattle.std.specs.Prelude.{◌≡◌, ℕ, ◌+◌, ◌<◌, ◌≤◌, length};
ghost use Rattle.std.specs.List.{list_any};
ghost use Rattle.nv_memory.specs.inner.Rights.{IsOneOf};
ghost use Rattle.nv_memory.specs.Region.{holds, covers, allows, lies_in, end_of, set_end};

use crate::region::{Region, Right};

// Whether the range is empty or lies in one region with the right.
pub fn is_held(regions: &[Region], address: u32, length: usize, right: Right) -> bool
    ensures { result ≡ holds regions.now address length right }
{
    length == 0 || is_in_one(regions, address, length, right)
}

// Whether some region has the address.
pub fn has_address(regions: &[Region], address: u32) -> bool
    ensures { result ≡ list_any (lies_in address 1) regions.now }
{
    regions.iter().any(|r| is_address_in(r, address))
}

fn is_address_in(region: &Region, address: u32) -> bool
    ensures { result ≡ lies_in address 1 region.now }
{
    region.start <= address && address < region.end
}

// The first region is tried before the loop over the others: a guest's code is most often there, and a fetch from it then
// goes straight through.
pub fn is_in_one(regions: &[Region], address: u32, length: usize, right: Right) -> bool
    ensures { result ≡ list_any (covers address length right) regions.now }
{
    match regions {
        [first, rest @ ..] => {
            is_in(first, address, length, right) || is_in_any(rest, address, length, right)
        }
        [] => false,
    }
}

fn is_in_any(regions: &[Region], address: u32, length: usize, right: Right) -> bool
    ensures { result ≡ list_any (covers address length right) regions.now }
{
    regions.iter().any(|r| is_in(r, address, length, right))
}

fn is_in(region: &Region, address: u32, length: usize, right: Right) -> bool
    ensures { result ≡ covers address length right region.now }
{
    region.start <= address
        && (address as usize).saturating_add(length) <= region.end as usize
        && has(region, right)
}

fn has(region: &Region, right: Right) -> bool
    ensures { result ≡ allows right region.now }
{
    match right {
        Right::Read => region.read,
        Right::Write => region.write,
        Right::Execute => region.execute,
    }
}

// Where the region ends.
#[tactic(auto, using(crate::proofs::Ends::end_of_get))]
pub fn end_at(regions: &[Region], region: usize) -> u32
    requires { region < length regions.now }
    ensures { result ≡ end_of regions.now region }
{
    regions[region].end
}

// The region at this place: what it covers is covered by one of them.
#[tactic(auto, using(crate::proofs::Parts::covered_at))]
pub fn region_at(regions: &[Region], region: usize) -> Region
    requires { region < length regions.now }
    ensures { IsOneOf regions.now result }
{
    regions[region]
}

// Moves the end of the region.
#[tactic(auto, using(crate::proofs::Ends::set_end_set))]
pub fn move_end(regions: &mut [Region], region: usize, end: u32)
    requires { region < length regions.old }
    ensures { regions.new ≡ set_end regions.old region end }
{
    let mut moved = regions[region];
    moved.end = end;
    regions[region] = moved;
}
