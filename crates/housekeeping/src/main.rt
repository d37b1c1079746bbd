// A studio's story: a copy whose checksum fails keeps the old tape, and a second copy that passes frees it.
#![tactic(auto)]

use crate::keeper::Question;
use crate::studio::{OLD_TAPE, Studio};
use crate::verdict::Verdict;
use anyhow::anyhow;
use catalogue::replicas::Replicas;
use cluster::cluster::Cluster;
use layers::cache::Cache;
use stores::change_list::ChangeList;
use stores::image::Image;
use stores::memory::Memory;

mod backup;
mod keeper;
mod replica;
mod studio;
mod transaction;
mod verdict;

impl<R: Replicas> Studio<'_, R> {
    // The old tape has a verified copy, which every replica knows of.
    fn first_day(&mut self) -> anyhow::Result<()> {
        self.rt.println("Day 100: the poster is copied to tape 3.")?;
        self.copy_poster(OLD_TAPE, 100, Verdict::Passed)?;
        for replica in 0..3 {
            self.catch_up(0, replica)?;
        }
        Ok(())
    }

    // A newer copy fails. Only replica 1 works, and housekeeping waits for it.
    fn second_day(&mut self) -> anyhow::Result<()> {
        self.rt
            .println("Day 101: it is copied to tape 5, and the checksum fails.")?;
        self.copy_poster(5, 101, Verdict::Failed)?;
        let question = Question {
            tape: 5,
            writer: 1,
            replica: 1,
        };
        self.keep_house(question, 101)
    }

    // Another passes. Replica 2 catches up, and housekeeping waits for that one.
    fn third_day(&mut self) -> anyhow::Result<()> {
        self.rt.println("Day 102: it is copied to tape 6, and the checksum passes.")?;
        self.copy_poster(6, 102, Verdict::Passed)?;
        self.catch_up(1, 2)?;
        self.catch_up(2, 2)?;
        let question = Question {
            tape: 6,
            writer: 3,
            replica: 2,
        };
        self.keep_house(question, 102)
    }

    // Every replica catches up, in the order of beginning.
    fn fourth_day(&mut self) -> anyhow::Result<()> {
        self.rt.println("Day 103: every replica catches up.")?;
        for number in 1..5 {
            for replica in 0..3 {
                self.catch_up(number, replica)?;
            }
        }
        self.look()
    }
}

fn tell<R: Replicas>(rt: &HostRuntime, cluster: &mut Cluster<R>) -> anyhow::Result<()> {
    let mut studio = Studio { rt, cluster };
    studio.first_day()?;
    studio.second_day()?;
    studio.third_day()?;
    studio.fourth_day()
}

fn run(rt: &HostRuntime) -> anyhow::Result<()> {
    let mut first = Memory::zeroed(rt.alloc())?;
    let mut second = Memory::zeroed(rt.alloc())?;
    let mut third = Memory::zeroed(rt.alloc())?;
    let replicas = (
        Image::new(&mut first),
        ChangeList::new(&mut second),
        Cache::new(Image::new(&mut third)),
    );
    // `map_err` gets no proof here: the replicas borrow a memory each.
    let Ok(mut cluster) = Cluster::open(rt.alloc(), replicas) else {
        return Err(anyhow!("no memory for a cluster"));
    };
    tell(rt, &mut cluster)
}

fn main(rt: HostRuntime) -> anyhow::Result<()> {
    run(&rt)
}
