ghost use Rattle.std.specs.Prelude.{◌≡◌, ◌+◌, ◌≤◌, length, []};
ghost use Rattle.ce_model.specs.Blocks.{with_ids};
ghost use Rattle.ce_model.specs.Process.{unborn_process};
ghost use Rattle.ce_model.specs.Node.{with_process, blocks_of};
ghost use Rattle.ce_model.specs.Kernel.{with_store};
ghost use Rattle.xm_block.specs.Stores.{ids_of};
ghost use Rattle.rk_node.specs.Boxes.{scrubbed_node};
ghost use Rattle.rk_node.specs.Standing.{node_model};
ghost use Rattle.rk_node.specs.Hearings.{AreNewToStore, process_block_ids};

use crate::node::Node;
use crate::pid::Pid;
use ce_model::PROCESS_COUNT;
use xm_block::Store;

impl Node {
    /// Gives all blocks to another store, and makes every process one that wasn't started yet.
    pub fn scrub(&mut self, out: &mut Store)
        requires apart { AreNewToStore (blocks_of (node_model self.old)) out.old }
        requires room { length (blocks_of (node_model self.old)) ≤ out.old.spare }
        ensures node { node_model self.new ≡ scrubbed_node (node_model self.old) }
        ensures moved { ids_of out.new.blocks
            ≡ with_ids (blocks_of (node_model self.old)) (ids_of out.old.blocks) }
        ensures spare { out.new.spare + length (blocks_of (node_model self.old)) ≡ out.old.spare }
        ensures batch { self.new.batch ≡ self.old.batch }
        ensures room { self.new.room ≡ self.old.room }
    {
        self.empty_store(out);
        for pid in 0..PROCESS_COUNT {
            self.scrub_process(Pid { number: pid }, out);
        }
        self.polling_ids.clear();
        self.turn = None;
    }

    /// Gives the blocks of the store to another one.
    fn empty_store(&mut self, out: &mut Store)
        requires apart { AreNewToStore (node_model self.old).store out.old }
        requires room { length (node_model self.old).store ≤ out.old.spare }
        ensures node { node_model self.new ≡ with_store [] (node_model self.old) }
        ensures moved { ids_of out.new.blocks
            ≡ with_ids (node_model self.old).store (ids_of out.old.blocks) }
        ensures spare { out.new.spare + length (node_model self.old).store ≡ out.old.spare }
        ensures batch { self.new.batch ≡ self.old.batch }
        ensures room { self.new.room ≡ self.old.room }
    {
        while let Some(block) = self.store.take_least() {
            out.give(block);
        }
    }

    /// Gives the blocks of a process to a store, and makes it one that wasn't started yet.
    fn scrub_process(&mut self, pid: Pid, out: &mut Store)
        requires apart { AreNewToStore (process_block_ids pid.number (node_model self.old))
            out.old }
        requires room { length (process_block_ids pid.number (node_model self.old)) ≤
            out.old.spare }
        ensures node { node_model self.new
            ≡ with_process (node_model self.old) pid.number unborn_process }
        ensures moved { ids_of out.new.blocks
            ≡ with_ids (process_block_ids pid.number (node_model self.old))
            (ids_of out.old.blocks) }
        ensures spare { out.new.spare + length (process_block_ids pid.number (node_model self.old))
            ≡ out.old.spare }
        ensures batch { self.new.batch ≡ self.old.batch }
        ensures room { self.new.room ≡ self.old.room }
    {
        self.held_blocks.drain(pid.number, out);
        let process = &mut self.processes[pid.number as usize];
        process.reset();
    }
}
