// What the working tables of an ordering stand for, as mathematics over plain lists.

#![tactic(auto)]
