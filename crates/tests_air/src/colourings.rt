//! Colourings of random graphs, by the slow checker.

use crate::slow::{Table, fault, graph_of, is_spilled, random_table};
use air_colour::colour;
use air_ir::Assignment;
use std::alloc::Global;
use std::test::Fail;

/// What is found of a colouring: what is wrong with it, whether a temporary is spilled, and how many moves are joined.
#[derive(Clone, Copy)]
struct Found {
    fault: u32,
    spills: bool,
    joins: usize,
}

/// What is found of the colouring of a table's graph.
fn colouring_of(alloc: Global, table: &Table) -> Result<Found, Fail> {
    let graph = graph_of(alloc, table)?;
    if graph.moves() > 1000 {
        return Err("too many moves".into());
    }
    let made = colour(alloc, graph)?;
    Ok(Found {
        fault: fault(alloc, table, &made)?,
        spills: is_spilled(&made),
        joins: made.joins.len(),
    })
}

// Each colouring is checked by counting anew. In some of these graphs a temporary is spilled, and in most none.
#[test]
fn colourings_of_random_graphs_pass_a_slow_checker(rt: HostRuntime) -> Result<(), Fail> {
    let mut spilled: usize = 0;
    let mut joins: usize = 0;
    for seed in 0..150 {
        let table = random_table(rt.alloc(), seed)?;
        let found = colouring_of(rt.alloc(), &table)?;
        assert_eq!(rt; found.fault, 0);
        if found.spills {
            spilled = spilled.wrapping_add(1);
        }
        joins = joins.wrapping_add(found.joins);
    }
    assert!(rt; spilled > 15 && spilled < 100 && joins > 400);
    Ok(())
}

/// What is wrong with spilling all temporaries of a table, without a join.
fn blank_fault(alloc: Global, table: &Table) -> Result<u32, Fail> {
    let tmps: u32 = if table.tmps < 100 {
        table.tmps as u32
    } else {
        0
    };
    Ok(fault(alloc, table, &Assignment::new(alloc, tmps)?)?)
}

#[test]
fn the_slow_checker_refuses_what_joins_and_gives_nothing(rt: HostRuntime) -> Result<(), Fail> {
    let mut refused: usize = 0;
    for seed in 0..40 {
        let table = random_table(rt.alloc(), seed)?;
        if blank_fault(rt.alloc(), &table)? != 0 {
            refused = refused.wrapping_add(1);
        }
    }
    assert!(rt; refused > 35);
    Ok(())
}
