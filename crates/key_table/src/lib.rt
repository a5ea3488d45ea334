// What tags by the clients' keys start from, each worked out when it is first asked for. Definitions: specs/KeyTable.antt.
#![tactic(auto)]

ghost use Rattle.std.specs.Prelude.{◌≡◌, List, ℕ, ◌≤◌, Some};
ghost use Rattle.message.specs.Layout.{client_count};
ghost use Rattle.key_table.specs.KeyTable.{Right, RightOf, StateOf, kept};

use hmac::Keyed;

// What each client's tags start from, where it is known: client k's is `states[k]`, and `states[0]` is no client's.
#[derive(Clone, Copy)]
pub struct KeyTable {
    states: [Option<Keyed>; 9],
}

impl KeyTable {
    // A table with nothing known.
    pub fn none() -> KeyTable
        ensures { (keys : List ℕ) → Right keys result }
    {
        KeyTable { states: [None; 9] }
    }

    // A client's state, from the table where it is known, else worked out and kept there; no client's for another number.
    pub fn state_of(&mut self, keys: &[u8; message::KEYS_LENGTH], client: u8) -> Keyed
        ensures right { Right keys.now self.old → Right keys.now self.new }
        ensures state { RightOf keys.now self.old client → 1 ≤ client → client ≤ client_count → StateOf keys.now client result × (kept self.new client ≡ Some result) }
    {
        if (client == 0) | (message::CLIENTS < client) {
            return hmac::keyed_of(&[]);
        }
        let at = client as usize;
        match self.states[at] {
            Some(state) => state,
            None => {
                let state = verify::key_state(keys, client);
                self.states[at] = Some(state);
                state
            }
        }
    }
}
