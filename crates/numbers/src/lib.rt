// The numbers that the scope (document 01) and the requests (document 02) hold the definitions to: tables in specs/, and the proof
// that they hold.
// No function: whatever answers these numbers is in the crates below.
#![tactic(auto)]
