// Reach and the chain shown, over sets of jobs (document 01, "The walk and the chain shown").
#![tactic(auto)]

ghost use Rattle.std.specs.Prelude.{◌≡◌, ◌<◌, length};
ghost use Rattle.chain.specs.Paths.{Joined, Both, Shows};
ghost use Rattle.chain.specs.Layers.{Around, Apart, Counted, Ready, Built};

// Where paths may go: for each job the jobs that it conflicts with, and the jobs that no path goes through.
#[derive(Clone, Copy)]
pub struct Paths<'a> {
    pub clash: &'a [u32; 32],
    pub shut: u32,
}

impl Paths<'_> {
    // The jobs that a path leads to from one of `from`, these too.
    pub fn spread(self, from: u32) -> u32
        ensures { Joined self.entry.clash.now self.entry.shut from result }
    {
        let mut seen = from;
        let mut todo = from;
        // A `while`, since jobs come to `todo` as it goes: the lowest in turn (document 01, "The shape of each place").
        while 0 < todo {
            let job = jobset::lowest(todo);
            let near = self.clash[job as usize];
            let fresh = jobset::without(jobset::without(near, seen), self.shut);
            todo = jobset::union(jobset::without(todo, jobset::single(job)), fresh);
            seen = jobset::union(seen, near);
        }
        seen
    }

    // The lowest shortest chain from job `first` to job `last`, written from the front as job numbers from 1, and how many jobs it has.
    pub fn show(self, first: u32, last: u32, chain: &mut [u8; 32]) -> Option<u32>
        requires { (first < 32) × (last < 32) × Both self.clash.now }
        ensures { Shows self.entry.clash.now self.entry.shut first last chain.old chain.new result }
    {
        let mut layers = [0u32; 32];
        let links = if first == last {
            0
        } else {
            self.count_links(first, last, &mut layers)?
        };
        self.build(&layers, first, links, chain);
        Some(links + 1)
    }

    // The fewest links from `first` to another job `last`. Layer n gets the jobs at n links from `last`.
    fn count_links(self, first: u32, last: u32, layers: &mut [u32; 32]) -> Option<u32>
        requires { Apart self.clash.now first last }
        ensures { Counted self.entry.clash.now self.entry.shut last first layers.new result }
    {
        let near = self.clash[first as usize];
        let mut seen = jobset::single(last);
        let mut layer = seen;
        for (n, place) in layers.iter_mut().enumerate() {
            if layer == 0 {
                return None;
            }
            *place = layer;
            if 0 < jobset::intersect(near, layer) {
                return Some(n as u32 + 1);
            }
            layer = jobset::without(jobset::without(around(self.clash, layer), self.shut), seen);
            seen = jobset::union(seen, layer);
        }
        // After 32 layers no job is left.
        None
    }

    // The chain from `from` on, job by job: the remaining number of links falls at each call (document 01, "The shape of each place").
    fn build(self, layers: &[u32; 32], from: u32, left: u32, chain: &mut [u8])
        requires { Ready self.clash.now layers.now chain.old from left }
        ensures { Built self.entry.clash.now layers.now chain.old chain.new from left }
    {
        // There is always room: `left` is below the chain's length.
        let Some((place, rest)) = chain.split_first_mut() else {
            return;
        };
        *place = (from + 1) as u8;
        if left == 0 {
            return;
        }
        let down = left - 1;
        let next = jobset::lowest(jobset::intersect(
            self.clash[from as usize],
            layers[down as usize],
        ));
        self.build(layers, next, down, rest);
    }
}

// The jobs that conflict with some job of a set. A free function: that there are 32 rows is known of an array argument, not of one behind a
// field.
fn around(clash: &[u32; 32], jobs: u32) -> u32
    ensures near { Around clash.now jobs result }
    ensures rows { length clash.now ≡ 32 }
{
    let mut near: u32 = 0;
    let mut left = jobs;
    // A `while` over the jobs left, the lowest in turn (document 01, "The shape of each place").
    while 0 < left {
        let job = jobset::lowest(left);
        near = jobset::union(near, clash[job as usize]);
        left = jobset::without(left, jobset::single(job));
    }
    near
}
