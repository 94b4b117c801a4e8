// Writing the patched listing: the heading, the old nodes, and the fences put in.
#![tactic(auto)]

ghost use Rattle.std.specs.Prelude.{◌≡◌, ◌+◌, ◌<◌, ◌≤◌, length, drop};
ghost use Rattle.std.proofs.lemmas.List.Edits.{sets};
ghost use Rattle.listing.specs.Limits.{NODES};
ghost use Rattle.listing.specs.Node.{node};
ghost use Rattle.listing.specs.Bytes.{version_of, count_f, count_n, record_at, nodes_of, node_bytes, nodes_bytes, bytes_of};
ghost use Rattle.listing.specs.Answer.{filled};
ghost use Rattle.order.specs.Patched.{marked, places, kept, fences, patched};
ghost use Rattle.fencing.specs.Marks.{marks_of};
ghost use Rattle.fencing.specs.Inner.MapFits.{MapFits};
ghost use Rattle.fencing.specs.Inner.Putting.{kept_as, fence_if, next_after};

use listing::{Kind, Listing, NONE};

// How many fences the map asks for. No `filter` and `count`, which jump at each byte that is no mark: writing counts three times.
pub fn places(map: &[u8]) -> usize
    ensures { (result ≡ places (marks_of map.now)) × (result ≤ length map.now) }
{
    let mut count = 0;
    for byte in map {
        count += usize::from(*byte == 1);
    }
    count
}

// A listing and a map of it, with few enough places.
#[derive(Drop)]
struct Patch<'a> {
    listing: &'a Listing<'a>,
    map: &'a [u8],
    ghost fits: { MapFits listing.now map.now },
}

impl<'a> Patch<'a> {
    // Whether the map asks for a fence after node i.
    #[tactic(auto, using(crate::proofs::Marks::marks_at))]
    fn is_marked(&self, i: usize) -> bool
        requires { i < count_n self.now.listing.now }
        ensures { result ≡ marked (marks_of self.now.map.now) i }
    {
        self.map[i] == 1
    }

    // Node i's record, where the next fence has the number `fence`; the number of the fence after that.
    fn put_node(&self, out: &mut [u8], i: usize, fence: u8) -> u8
        requires { (i < count_n self.now.listing.now) × (fence < 255) × (record_at (i + 1) ≤ length out.old) }
        ensures { (result ≡ next_after (marked (marks_of self.now.map.now) i) fence)
            × (out.new ≡ sets out.old (record_at i)
            (node_bytes (kept_as (marked (marks_of self.now.map.now) i) (node (nodes_of self.now.listing.now) i) fence))) }
    {
        let routine = self.listing.routine(i);
        let kind = self.listing.kind(i);
        let location = self.listing.location(i);
        let first = self.listing.first(i);
        let second = self.listing.second(i);
        if self.is_marked(i) {
            listing::put_record(out, i, routine, kind, location, fence, NONE);
            return fence + 1;
        }
        listing::put_record(out, i, routine, kind, location, first, second);
        fence
    }

    // The fence after node i as node `at`, if the map asks for it; the number of the fence after that.
    fn put_fence(&self, out: &mut [u8], i: usize, at: usize) -> usize
        requires { (i < count_n self.now.listing.now)
            × (at + places (drop i (marks_of self.now.map.now)) ≤ NODES)
            × (record_at (at + places (drop i (marks_of self.now.map.now))) ≤ length out.old) }
        ensures { (result ≡ next_after (marked (marks_of self.now.map.now) i) at)
            × (out.new ≡ sets out.old (record_at at)
            (nodes_bytes (fence_if (marked (marks_of self.now.map.now) i) (node (nodes_of self.now.listing.now) i)))) }
    {
        let routine = self.listing.routine(i);
        let first = self.listing.first(i);
        let second = self.listing.second(i);
        if self.is_marked(i) {
            listing::put_record(out, at, routine, Kind::Fence, 0, first, second);
            return at + 1;
        }
        at
    }

    // The old nodes' records.
    fn put_nodes(&self, out: &mut [u8])
        requires { record_at (count_n self.now.listing.now) ≤ length out.old }
        ensures { out.new ≡ sets out.old (record_at 0)
            (nodes_bytes (kept (count_n self.now.listing.now) (nodes_of self.now.listing.now) (marks_of self.now.map.now))) }
    {
        let end = self.listing.nodes();
        let mut fence = end as u8;
        for i in 0..end {
            fence = self.put_node(out, i, fence);
        }
    }

    // The fences' records, after those of the old nodes; how many nodes there are then.
    fn put_fences(&self, out: &mut [u8]) -> usize
        requires { record_at (count_n self.now.listing.now + places (marks_of self.now.map.now)) ≤ length out.old }
        ensures { (result ≡ count_n self.now.listing.now + places (marks_of self.now.map.now))
            × (out.new ≡ sets out.old (record_at (count_n self.now.listing.now))
            (nodes_bytes (fences (nodes_of self.now.listing.now) (marks_of self.now.map.now)))) }
    {
        let nodes = self.listing.nodes();
        let mut at = nodes;
        for i in 0..nodes {
            at = self.put_fence(out, i, at);
        }
        at
    }
}

// The patched listing, at the start of `out`; its length.
pub fn put_patched(listing: &Listing, map: &[u8], out: &mut [u8]) -> usize
    requires { MapFits listing.now map.now × (record_at (count_n listing.now + places (marks_of map.now)) ≤ length out.old) }
    ensures { (result ≡ record_at (count_n listing.now + places (marks_of map.now)))
        × (out.new ≡ filled (bytes_of (version_of listing.now) (count_f listing.now)
        (patched (nodes_of listing.now) (marks_of map.now))) out.old) }
{
    let patch = Patch { listing, map };
    let version = listing.version();
    let routines = listing.routines();
    let nodes = listing.nodes() + places(map);
    listing::put_heading(out, version, routines, nodes as u8);
    patch.put_nodes(out);
    let end = patch.put_fences(out);
    Listing::HEADING + Listing::RECORD * end
}
