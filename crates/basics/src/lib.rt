// Words that every layer's definitions share, and laws on lists that loops need. No code.
//
// specs/Choice       a choice by a test, with the one law that takes it apart
// specs/Refusals     a call's checks as a list of tests, each with its number
// specs/Sum          the sum of part 1: added from the first number on, each step rounded
// specs/Nodes        lists of node numbers: membership as a test, no repeats, how many there can be
// specs/Lists        a test of every element, a list in pieces of one length
// specs/Graph        a node's list: its row, then the other ends of its bridges
// specs/Inside/Rows  n rows of at most d entries below n, which every step of a build keeps
// proofs/Loops       what a loop that reads or rewrites a slice has done so far
// proofs/Every       what a loop that gathers a test over a slice has gathered so far
// proofs/Refusals    which check's number a list of checks returns
// proofs/Tests       what tests joined by `&` and `|` say of each
// proofs/Counting    how many different nodes below n there can be
// proofs/Sums        a sum of products, one step and the end
// proofs/Members     membership in a part of a list
// proofs/Rows        rows stay bounded where one is replaced
// proofs/Examples    a node's list that computes
#![tactic(auto)]
