//! Tests of machines: their pairs, states and steps, closed sets, machines without some characters,
//! certificates, what is accepted, and the search.
mod accept;
mod again;
mod cert;
mod clashes;
mod dues;
mod edges;
mod excused;
mod pairs;
mod search;
mod seeds;
mod small;
mod sorted;
mod window;
mod without;
