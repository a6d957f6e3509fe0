// A rising list of stages, and tables and vectors in compact order: place p stands for stage p of the list.
#![tactic(auto)]

ghost use Rattle.std.specs.Prelude.{◌≡◌, suc, ◌≤◌, ◌<◌};
ghost use Rattle.tables.specs.RowMajor.{table, Holds};
ghost use Rattle.tables.specs.Operators.{span};
ghost use Rattle.tables.specs.Vectors.{vector};
ghost use Rattle.compact.specs.Listing.{marked, stage_at, Listing, StagesBelow, StagesDiffer, Found};
ghost use Rattle.compact.specs.Compact.{Packed, UnpackedRow, Unpacked, UnpackedVector};

use tables::{row, vector};

// The stage at place q of the list. `stage`, `find` and `list` ask nothing of what stands in the places.
pub fn stage(q: usize, places: &[usize; 32]) -> usize
    requires { q < 32 }
    ensures { result ≡ stage_at places.now q }
{
    places[q]
}

// The place of stage i among the first r of the list, if it stands there.
pub fn find(r: usize, places: &[usize; 32], i: usize) -> Option<usize>
    requires { r ≤ 32 }
    ensures { Found r places.now i result }
{
    for q in 0..r {
        if stage(q, places) == i {
            return Some(q);
        }
    }
    None
}

// Stage i follows the r listed stages, which are those before it that the mask marks, if it is marked too. The result is
// the new count.
fn list_stage(i: usize, r: usize, mask: &[bool; 32], places: &mut [usize; 32]) -> usize
    requires { (i < 32) × Listing (marked mask.now) i r places.old }
    ensures { Listing (marked mask.now) (suc i) result places.new }
{
    if mask[i] {
        places[r] = i;
        return r + 1;
    }
    r
}

// The stages below n that the mask marks. The result is their count; later places of the list are left open.
pub fn list(n: usize, mask: &[bool; 32], places: &mut [usize; 32]) -> usize
    requires { n ≤ 32 }
    ensures { Listing (marked mask.now) n result places.new }
{
    let mut r = 0;
    for i in 0..n {
        r = list_stage(i, r, mask, places);
    }
    r
}

// A list of different stages at the front of its places; the later places are left open. It is not `Copy`, so that no call
// copies it unseen.
#[derive(Drop)]
pub struct Stages {
    pub places: [usize; 32],
    pub count: usize,
    pub ghost few: { count ≤ 32 },
    pub ghost below: { StagesBelow 32 count places },
    pub ghost differ: { StagesDiffer count places },
}

impl Stages {
    // A list of no stage.
    pub fn none() -> Self
        ensures { result.count ≡ 0 }
    {
        Stages {
            places: [0; 32],
            count: 0,
        }
    }

    // The list becomes that of the stages below n that the mask marks.
    pub fn list(&mut self, n: usize, mask: &[bool; 32])
        requires { n ≤ 32 }
        ensures { Listing (marked mask.now) n self.new.count self.new.places }
    {
        self.count = list(n, mask, &mut self.places);
    }

    // The stage at place q of the list.
    pub fn stage(&self, q: usize) -> usize
        requires { q < 32 }
        ensures { result ≡ stage_at self.now.places q }
    {
        stage(q, &self.places)
    }

    // The place of stage i in the list, if it is listed.
    pub fn find(&self, i: usize) -> Option<usize>
        ensures { Found self.now.count self.now.places i result }
    {
        find(self.count, &self.places, i)
    }

    fn pack_row(&self, p: usize, t: &[f64; 1024], s: &mut [f64; 1024])
        requires { p < self.now.count }
        ensures { let at = stage_at self.now.places in Holds s.new (span p 0 self.now.count (λ q. table t.now (at p) (at q)) (table s.old)) }
    {
        let i = self.stage(p);
        for q in 0..self.count {
            let j = self.stage(q);
            let x = row::get(i, j, t);
            row::put(p, q, x, s);
        }
    }

    // The count × count places of s become the numbers of t between the listed stages; its other places are left
    // open.
    pub fn pack(&self, t: &[f64; 1024], s: &mut [f64; 1024])
        ensures { Packed self.now.count (stage_at self.now.places) (table t.now) s.new }
    {
        for p in 0..self.count {
            self.pack_row(p, t, s);
        }
    }

    fn unpack_row(&self, p: usize, y: &[f64; 1024], x: &mut [f64; 1024])
        requires { p < self.now.count }
        ensures { UnpackedRow (stage_at self.now.places) (table y.now) p self.now.count (table x.old) x.new }
    {
        let i = self.stage(p);
        for q in 0..self.count {
            let j = self.stage(q);
            let z = row::get(p, q, y);
            row::put(i, j, z, x);
        }
    }

    // The way back: the places of x between the listed stages become the count × count numbers of y.
    pub fn unpack(&self, y: &[f64; 1024], x: &mut [f64; 1024])
        ensures { Unpacked (stage_at self.now.places) (table y.now) self.now.count self.now.count (table x.old) x.new }
    {
        for p in 0..self.count {
            self.unpack_row(p, y, x);
        }
    }

    // The way back of a vector: x at the listed stages becomes the first numbers of y; its other places stay.
    pub fn unpack_vector(&self, y: &[f64; 32], x: &mut [f64; 32])
        ensures { UnpackedVector (stage_at self.now.places) (vector y.now) self.now.count (vector x.old) x.new }
    {
        for q in 0..self.count {
            let i = self.stage(q);
            let z = vector::get(q, y);
            vector::put(i, z, x);
        }
    }
}
