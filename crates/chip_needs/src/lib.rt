//! A step of the chip finds of tickets and targets what its calls of the bus ask: definitions, with their laws. Nothing here runs.
#![tactic(auto)]

mod laws;

pub use laws::{
    acks_find, attention_is_told, command_steps_join, commands_find_nexus, greetings_are_told,
    message_steps_join, ordinary_steps_join, own_moves_stand, pointers_stand, rogue_steps_join,
    selections_are_greeted, statuses_are_told, waiting_tickets_stay,
};
