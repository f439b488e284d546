// The settled examples of document 01 that are marked *, and request P1's listing of sheet A: one table, and one theorem about the definitions.
