mod families;
mod gate_tests;
mod gates;
mod run_tests;
mod runs;
mod thread_tests;
