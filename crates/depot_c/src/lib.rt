// The depot's calls for C: numbers and byte lists in, the proved call, bytes out.
#![tactic(auto)]

mod advance_call;
mod answer;
mod dispatch_calls;
mod identifiers;
mod lists;
mod open_calls;
mod panel_calls;
mod rounds_call;
