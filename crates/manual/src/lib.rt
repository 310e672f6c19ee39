// Definitions: what every instruction means, told by values. They stand in specs/, with the table of the shapes of plans and that of their traps.
#![tactic(auto)]
