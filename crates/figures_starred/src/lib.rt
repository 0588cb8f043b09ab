// Document 01's starred figures as one table, and the theorem that the definitions of the promises give each of them. The table is in specs/, the theorem in proofs/Table.antt.
// The port added it.
#![tactic(auto)]
