mod closed_words_tests;
mod counters;
mod crew_tests;
mod gate_tests;
mod heap_tests;
mod traces;
