use crate::graph::GraphBench;
use crate::held::KernelBench;
use crate::texts;
use case_files::{Stage, words};
use std::alloc::Global;

/// A kernel and a graph, both of which are new.
#[derive(Drop)]
pub(crate) struct Bench {
    alloc: Global,
    kernel: KernelBench,
    graph: GraphBench,
}

impl Stage for Bench {
    fn new(alloc: Global) -> anyhow::Result<Bench> {
        Ok(Bench {
            alloc,
            kernel: KernelBench::new(alloc),
            graph: GraphBench::new(alloc),
        })
    }

    fn step(&mut self, line: &str, input: &[u8], out: &mut Vec<u8>) -> anyhow::Result<()> {
        let words = words(self.alloc, line)?;
        let words = words.as_slice();
        if self.kernel.step(words, out)? || self.graph.step(words, input, out)? {
            return Ok(());
        }
        texts::step(self.alloc, words, input, out)
    }
}
