//! Worked examples of the rules, by computation: no code takes part. Each shows that the definitions of steps, turns,
//! verdicts, overflow and journals are those that are meant. They stand apart, so that who proves the scheduler
//! doesn't wait for them.
#![tactic(auto)]
