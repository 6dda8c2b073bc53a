mod copies;
mod graphs;
mod graphs_by_hand;
mod long_graphs;
mod texts;
mod values;
